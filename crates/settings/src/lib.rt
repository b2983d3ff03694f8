// The settings: their words, which of them are in range, and which number refuses them. Every test takes any words at all.
#![tactic(auto)]

ghost use Rattle.std.specs.Prelude.{◌≡◌, ◌≤◌, length};
ghost use Rattle.settings.specs.Settings.{
  period_ok,
  gain_ok,
  gains_ok,
  tied as is_tied,
  gains_tied,
  limits_ok,
  rest_ok,
  accepted,
  checked,
};
ghost use Rattle.settings.specs.Words.{words_of, settings_of, size};
ghost use Rattle.settings.specs.BenchSettings.{bench_settings};

use fixed::refusal::Refusal;

// The ends of the period.
pub const SHORTEST: i32 = 100;

pub const LONGEST: i32 = 4000;

// How many words settings are.
pub const WORDS: usize = 15;

// In the order of the motor's sheet: the period, speed gains, current gains, the limits V and Q, the flux model's three, Kn, F, R.
#[repr(C)]
#[derive(Clone, Copy)]
pub struct Settings {
    pub t: i32,
    pub skp: i32,
    pub skcor: i32,
    pub ski: i32,
    pub ckp: i32,
    pub ckcor: i32,
    pub cki: i32,
    pub v: i32,
    pub q: i32,
    pub kr: i32,
    pub kt: i32,
    pub kth: i32,
    pub kn: i32,
    pub f: i32,
    pub r: i32,
}

// The bench set, with which `run_rows` runs.
pub fn bench_settings() -> Settings
    ensures { result ≡ bench_settings }
{
    Settings {
        t: 600,
        skp: 8192,
        skcor: 64,
        ski: 128,
        ckp: 4096,
        ckcor: 256,
        cki: 256,
        v: 4096,
        q: 3277,
        kr: 75,
        kt: 310,
        kth: 164,
        kn: 64,
        f: 2458,
        r: 41,
    }
}

fn period_ok(s: Settings) -> bool
    ensures { result ≡ period_ok s }
{
    fixed::within(SHORTEST, LONGEST, s.t)
}

// Three numbers and no struct of gains: settings have them flat, as C does, and a struct would be made to be taken apart here.
fn gain_ok(kp: i32, kcor: i32, ki: i32) -> bool
    ensures { result ≡ gain_ok kp kcor ki }
{
    fixed::within(1, 32767, kp) & fixed::within(0, 4096, kcor) & fixed::within(0, 32767, ki)
}

fn gains_ok(s: Settings) -> bool
    ensures { result ≡ gains_ok s }
{
    gain_ok(s.skp, s.skcor, s.ski) & gain_ok(s.ckp, s.ckcor, s.cki)
}

// In 64 bits, so that the product fits whatever the gains are. Three numbers, as above.
pub fn tied(kp: i32, kcor: i32, ki: i32) -> bool
    ensures { result ≡ is_tied kp kcor ki }
{
    let asked = fixed::times(kp, kcor);
    let has = fixed::times(4096, ki);
    asked == has
}

// The two sets are the same as above and what is asked of them is not: one function of both would take that as a parameter, and be no shorter.
fn gains_tied(s: Settings) -> bool
    ensures { result ≡ gains_tied s }
{
    tied(s.skp, s.skcor, s.ski) & tied(s.ckp, s.ckcor, s.cki)
}

fn limits_ok(s: Settings) -> bool
    ensures { result ≡ limits_ok s }
{
    fixed::within(1, 4096, s.v) & fixed::within(1, 8191, s.q)
}

fn rest_ok(s: Settings) -> bool
    ensures { result ≡ rest_ok s }
{
    fixed::within(1, 4096, s.kr)
        & fixed::within(0, 32767, s.kt)
        & fixed::within(0, 8191, s.kth)
        & fixed::within(1, 4096, s.kn)
        & fixed::within(410, 8191, s.f)
        & fixed::within(1, 8191, s.r)
}

// What settings answer: themselves, once all are in range, or why they are refused. The lowest number that applies decides.
#[tactic(auto, unfolding(crate::specs::Settings::checked))]
pub fn check(s: Settings) -> Result<Settings, Refusal>
    ensures { result ≡ checked s }
{
    if !period_ok(s) {
        return Err(Refusal::Period);
    }
    if !gains_ok(s) {
        return Err(Refusal::Gains);
    }
    if !gains_tied(s) {
        return Err(Refusal::Untied);
    }
    if !limits_ok(s) {
        return Err(Refusal::Limits);
    }
    if !rest_ok(s) {
        return Err(Refusal::Rest);
    }
    Ok(s)
}

// Whether settings are accepted.
#[tactic(auto, using(crate::proofs::Ranges::checked_ok))]
pub fn is_accepted(s: Settings) -> bool
    ensures { result ≡ accepted s }
{
    check(s).is_ok()
}

// The words, in the order of the sheet. A function and no `From`: an array of numbers does not say which order it is in.
pub fn words_of(s: Settings) -> [i32; WORDS]
    ensures { result ≡ words_of s }
{
    [
        s.t, s.skp, s.skcor, s.ski, s.ckp, s.ckcor, s.cki, s.v, s.q, s.kr, s.kt, s.kth, s.kn, s.f,
        s.r,
    ]
}

// The settings whose words these numbers begin with. No `From` here either: more numbers may follow, as in a line of `probe`.
pub fn of_words(w: &[i32]) -> Settings
    requires { size ≤ length w.now }
    ensures { result ≡ settings_of w.now }
{
    Settings {
        t: w[0],
        skp: w[1],
        skcor: w[2],
        ski: w[3],
        ckp: w[4],
        ckcor: w[5],
        cki: w[6],
        v: w[7],
        q: w[8],
        kr: w[9],
        kt: w[10],
        kth: w[11],
        kn: w[12],
        f: w[13],
        r: w[14],
    }
}
