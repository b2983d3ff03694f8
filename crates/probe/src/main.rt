// The calls as text: each line of standard input is one call of `drive`, each line of standard output is what it answered. So that a
// model of the drive, in any language, can be held against it word by word.
#![tactic(auto)]

ghost use Rattle.std.specs.Prelude.{◌≡◌, ⊤, ◌*◌, ◌+◌, ◌<◌, ◌≤◌, cond, [], ◌++◌, pos, get_or, is_some, length, replicate, List, IfOk, IfSome};
ghost use Rattle.writing.specs.Decimal.{bad_text, line_text};
ghost use Rattle.writing.specs.Page.{Put, Room};
ghost use Rattle.feeding.specs.Lines.{one_more, good_lines, ends_bad, after_all};
ghost use Rattle.feeding.specs.Feeding.{line_due};
ghost use Rattle.feeding.specs.Feeds.{as_fed};
ghost use Rattle.probe.specs.Calls.{
  most,
  record_at,
  is_flag,
  flags,
  call_by,
  is_call,
  calls_start,
  calls_after,
  flag_of,
  settings_at,
  shaft_at,
  command_at,
  field_at,
  integrals_at,
  drive_at,
  call_of,
  record_words as record_words_of,
  made_words,
  stepped_words,
  answered_words,
  answer_words,
  call_text,
};
ghost use Rattle.drive.specs.Calls.{made};

use drive::Answered;
use drive_record::{Command, Drive, Integrals};
use feeding::{Feeder, Told};
use field::Field;
use pipes::Trouble;
use settings::Settings;
use shaft::Shaft;
use stages::Stepped;
use std::io::{Read, Write};
use writing::Page;

// What goes from one call to the next: how many came.
#[derive(Clone, Copy)]
pub struct Calls {
    pub before: u64,
}

// Where the program stands between two bytes.
type Fed = Feeder<Calls, ALL>;

// What a line asks of the drive.
#[derive(Clone, Copy)]
enum Call {
    Make(Settings),
    Step(Drive, i32, i32, i32),
    Target(Drive, i32),
    Clear(Drive),
}

// Numbers in: the call, the settings, 15 words of the record, then the call's own. The places of these three, and the most there are.
const SETTINGS: usize = 1;

const RECORD: usize = SETTINGS + settings::WORDS;

const OWN: usize = RECORD + 15;

const ALL: usize = OWN + 3;

// Of the record's words two are flags.
const SEEN: usize = RECORD + 1;

const TRIPPED: usize = RECORD + 14;

// What a target has of its own is one number.
const WITH_TARGET: usize = OWN + 1;

// Functions and no `From`, here and below: an array of numbers does not say at which places these words stand.
fn settings_in(n: &[i32; ALL]) -> Settings
    ensures { result ≡ settings_at n.now }
{
    let words = &n[..];
    settings::of_words(&words[SETTINGS..])
}

// A flag is 0 or 1.
fn flag(word: i32) -> Option<bool>
    ensures good { is_some result ≡ is_flag word }
    ensures value { IfSome result (λ set. set ≡ flag_of word) }
{
    match word {
        0 => Some(false),
        1 => Some(true),
        _ => None,
    }
}

#[tactic(auto, unfolding(crate::specs::Calls::shaft_at))]
fn shaft_in(n: &[i32; ALL]) -> Option<Shaft>
    ensures good { is_some result ≡ is_flag (get_or n.now (record_at + 1) (pos 0)) }
    ensures value { IfSome result (λ s. s ≡ shaft_at n.now) }
{
    Some(Shaft {
        count: n[RECORD],
        seen: flag(n[SEEN])?,
        sum: n[RECORD + 2],
        steps: n[RECORD + 3],
        speed: n[RECORD + 4],
    })
}

#[tactic(auto, unfolding(crate::specs::Calls::command_at))]
fn command_in(n: &[i32; ALL]) -> Command
    ensures { result ≡ command_at n.now }
{
    Command {
        target: n[RECORD + 5],
        reference: n[RECORD + 6],
        torque: n[RECORD + 7],
        flux: n[RECORD + 8],
    }
}

#[tactic(auto, unfolding(crate::specs::Calls::field_at))]
fn field_in(n: &[i32; ALL]) -> Field
    ensures { result ≡ field_at n.now }
{
    Field {
        fine: n[RECORD + 9],
        angle: n[RECORD + 10],
    }
}

#[tactic(auto, unfolding(crate::specs::Calls::integrals_at))]
fn integrals_in(n: &[i32; ALL]) -> Integrals
    ensures { result ≡ integrals_at n.now }
{
    Integrals {
        speed: n[RECORD + 11],
        d: n[RECORD + 12],
        q: n[RECORD + 13],
    }
}

fn drive_in(n: &[i32; ALL]) -> Option<Drive>
    ensures good { is_some result ≡ flags n.now }
    ensures value { IfSome result (λ d. d ≡ drive_at n.now) }
{
    Some(Drive {
        settings: settings_in(n),
        shaft: shaft_in(n)?,
        command: command_in(n),
        field: field_in(n),
        integrals: integrals_in(n),
        tripped: flag(n[TRIPPED])?,
    })
}

// The call that so many numbers are, if they are one: 0 makes a drive, 1 steps it, 2 sets its target, 3 clears it.
#[tactic(auto, unfolding(crate::specs::Calls::call_by))]
fn call_in(n: &[i32; ALL], count: usize) -> Option<Call>
    ensures good { is_some result ≡ call_by n.now count }
    ensures value { IfSome result (λ c. c ≡ call_of n.now) }
{
    match n[0] {
        0 if count == RECORD => Some(Call::Make(settings_in(n))),
        1 if count == ALL => Some(Call::Step(drive_in(n)?, n[OWN], n[OWN + 1], n[OWN + 2])),
        2 if count == WITH_TARGET => Some(Call::Target(drive_in(n)?, n[OWN])),
        3 if count == OWN => Some(Call::Clear(drive_in(n)?)),
        _ => None,
    }
}

// Numbers out: the record's 15 words.
fn record_words(d: Drive) -> [i32; 15]
    ensures { result ≡ record_words_of d }
{
    [
        d.shaft.count,
        i32::from(d.shaft.seen),
        d.shaft.sum,
        d.shaft.steps,
        d.shaft.speed,
        d.command.target,
        d.command.reference,
        d.command.torque,
        d.command.flux,
        d.field.fine,
        d.field.angle,
        d.integrals.speed,
        d.integrals.d,
        d.integrals.q,
        i32::from(d.tripped),
    ]
}

// Numbers, and the record's words behind them, as a line: twelve bytes for each of 22 words at most.
fn put_with_record(page: &mut Page, numbers: &[i32], d: Drive)
    requires { (length numbers.now ≤ 7) × Room page.old 264 }
    ensures put { Put page.old page.new (line_text (numbers.now ++ record_words_of d)) }
    ensures bound { page.new.at ≤ page.old.at + 264 }
{
    let mut words = [0i32; 22];
    let end = numbers.len() + 15;
    words[..numbers.len()].copy_from_slice(numbers);
    words[numbers.len()..end].copy_from_slice(&record_words(d));
    page.put_line(&words[..end]);
}

fn put_made(page: &mut Page, s: Settings)
    requires { Room page.old 264 }
    ensures put { Put page.old page.new (line_text (made_words (made s))) }
    ensures bound { page.new.at ≤ page.old.at + 264 }
{
    match drive::make(s) {
        Ok(d) => put_with_record(page, &[0], d),
        Err(why) => page.put_line(&[why.number()]),
    }
}

fn put_answered(page: &mut Page, a: Answered)
    requires { Room page.old 264 }
    ensures put { Put page.old page.new (line_text (answered_words a)) }
    ensures bound { page.new.at ≤ page.old.at + 264 }
{
    put_with_record(page, &[a.number], a.drive);
}

fn put_stepped(page: &mut Page, s: Stepped)
    requires { Room page.old 264 }
    ensures put { Put page.old page.new (line_text (stepped_words s)) }
    ensures bound { page.new.at ≤ page.old.at + 264 }
{
    let p = s.pulses;
    let numbers = [
        s.number,
        p.a,
        p.b,
        p.c,
        i32::from(p.clipped),
        s.voltage.alpha,
        s.voltage.beta,
    ];
    put_with_record(page, &numbers, s.drive);
}

fn put_answer(page: &mut Page, call: Call)
    requires { Room page.old 264 }
    ensures put { Put page.old page.new (line_text (answer_words call)) }
    ensures bound { page.new.at ≤ page.old.at + 264 }
{
    match call {
        Call::Make(s) => put_made(page, s),
        Call::Step(d, ia, ib, count) => put_stepped(page, drive::step(d, ia, ib, count)),
        Call::Target(d, wanted) => put_answered(page, drive::target(d, wanted)),
        Call::Clear(d) => put_answered(page, drive::clear(d)),
    }
}

// A line is a call where its numbers are one; it is answered what the drive answers that call, by 264 bytes at most.
impl Told<ALL> for Calls {
    ghost most = { 264 };

    ghost can_tell = { λ c. ⊤ };

    ghost fits = { is_call };

    ghost after = { calls_after };

    ghost answers = { λ c ns text. text ≡ call_text ns };

    fn told(self, page: &mut Page, numbers: &[i32; ALL], count: usize) -> Option<Calls> {
        let call = call_in(numbers, count)?;
        put_answer(page, call);
        Some(Calls {
            before: feeding::next(self.before),
        })
    }
}

fn start() -> Fed
    ensures { as_fed result ≡ line_due calls_start (replicate most (pos 0)) }
{
    Feeder {
        kept: Calls { before: 0 },
        line: text::line_start(),
        numbers: [0; ALL],
        begun: false,
        stopped: false,
    }
}

// What is written last: that a line is bad, where one is no call or has no line feed.
fn ended(page: &mut Page, s: Fed)
    requires { Room page.old 25 }
    ensures put { Put page.old page.new (cond s.begun (bad_text (one_more s.kept.before)) []) }
    ensures bound { page.new.at ≤ page.old.at + 25 }
{
    if s.begun {
        page.put_bad(feeding::next(s.kept.before));
    }
}

// All the calls, and what is written last; where a read or a write failed nothing is. So where all of an input was read, of fewer than 2^64 − 1
// bytes, and all that was written was sent, there were as many calls as it has lines that are calls, up to the first that is none, and
// whether one is none stands there too.
fn run_through<R: Read, W: Write>(
    from: &mut R,
    to: &mut W,
    bytes: &mut [u8],
    out: &mut [u8],
) -> Result<Fed, Trouble>
    requires { (0 < length bytes.old) × (264 * length bytes.old ≤ length out.old) }
    ensures { IfOk result (λ last. IfSome (R.remaining from.old) (λ input. length input < 18446744073709551615
        → (last.kept ≡ after_all calls_after calls_start (good_lines is_call input)) × (last.begun ≡ ends_bad is_call input))) }
{
    let s = pipes::feed_through(from, to, start(), bytes, out)?;
    let mut closing = Page::new(out, 0);
    ended(&mut closing, s);
    let end = closing.place();
    pipes::send(to, &out[..end])?;
    Ok(s)
}

// Where a read or a write failed words on standard error say so.
fn main(rt: HostRuntime) {
    let mut bytes = [0u8; 256];
    // 264 places for each of them, as `fed` asks
    let mut out = [0u8; 67584];
    if let Err(why) = run_through(&mut rt.stdin(), &mut rt.stdout(), &mut bytes, &mut out) {
        pipes::tell_trouble(&mut rt.stderr(), b"probe", why);
    }
}
