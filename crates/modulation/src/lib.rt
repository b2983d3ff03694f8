// Space-vector modulation: from the voltage asked to the three compares of one period.
#![tactic(auto)]

ghost use Rattle.std.specs.Prelude.{◌≡◌, ◌≤◌, nat_abs, ◌<ℤ◌, ◌≤ℤ◌};
ghost use Rattle.modulation.specs.Modulation.{
  entries_of,
  bit as bit_of,
  sector_number,
  sector,
  sector_at,
  sector_of,
  time_of,
  share_of,
  clipped_times,
  times_of,
  compare_at,
  placed,
  modulated,
  longest,
  entry_end,
  InPeriod,
  Period,
  Small,
  Time,
  Room,
};
ghost use Rattle.modulation.specs.declared.Turn.TheVariants.{First};

use crate::Turn::{First, Second, Third};

// The compares of the phases a, b and c, and whether the voltage was more than the period holds. No Option: there are three compares in either case.
#[derive(Clone, Copy)]
pub struct Pulses {
    pub a: i32,
    pub b: i32,
    pub c: i32,
    pub clipped: bool,
}

// X, Y and Z.
#[derive(Clone, Copy)]
pub struct Entries {
    pub x: i32,
    pub y: i32,
    pub z: i32,
}

// The turns in which the phases go on.
#[derive(Clone, Copy)]
pub enum Turn {
    First,
    Second,
    Third,
}

// A row of the sector table: the entries for t1 and t2, and the turn of each phase.
#[derive(Clone, Copy)]
pub struct Sector {
    pub t1: i32,
    pub t2: i32,
    pub a: Turn,
    pub b: Turn,
    pub c: Turn,
}

// The times of the two active vectors, which stand whether they were clipped or not.
#[derive(Clone, Copy)]
pub struct Times {
    pub t1: i32,
    pub t2: i32,
    pub clipped: bool,
}

fn entries_of(va: i32, vb: i32) -> Entries
    requires { (nat_abs va ≤ 8192) × (nat_abs vb ≤ 8192) }
    ensures { result ≡ entries_of va vb }
{
    let a = 3547 * va;
    let b = 2048 * vb;
    Entries {
        x: 2 * b,
        y: a + b,
        z: b - a,
    }
}

#[tactic(auto, unfolding(crate::specs::Modulation::bit))]
fn bit(v: i32, w: u32) -> u32
    ensures value { result ≡ bit_of v w }
    ensures most { result ≤ w }
{
    if 0 < v { w } else { 0 }
}

#[tactic(auto, unfolding(crate::specs::Modulation::sector_number))]
fn sector_number(e: Entries) -> u32
    requires { Small e }
    ensures { result ≡ sector_number e }
{
    bit(e.x, 1) + bit(-e.z, 2) + bit(-e.y, 4)
}

// A row in a line, so that the table can be read as one.
fn sector_with(t1: i32, t2: i32, a: Turn, b: Turn, c: Turn) -> Sector
    ensures { result ≡ sector t1 t2 a b c }
{
    Sector { t1, t2, a, b, c }
}

// The table: which entries are t1 and t2, and in which turns the phases a, b and c go on.
#[tactic(auto, unfolding(crate::specs::Modulation::sector_at))]
fn sector_at(n: u32, e: Entries) -> Sector
    requires { Small e }
    ensures { result ≡ sector_at n e }
{
    match n {
        1 => sector_with(e.z, e.y, Second, First, Third),
        2 => sector_with(e.y, -e.x, First, Third, Second),
        3 => sector_with(-e.z, e.x, First, Second, Third),
        4 => sector_with(-e.x, e.z, Third, Second, First),
        5 => sector_with(e.x, -e.y, Third, First, Second),
        6 => sector_with(-e.y, -e.z, Second, Third, First),
        _ => sector_with(0, 0, First, Second, Third),
    }
}

fn time(t: i32, e: i32) -> i32
    requires { (nat_abs t ≤ longest) × (nat_abs e ≤ entry_end) }
    ensures { result ≡ time_of t e }
{
    fixed::scaled(t, e, 16777216) as i32
}

// The share of a time x in the period t, where the two times together come to `sum`, which is more than t. None of the three is negative,
// and the product has 32 bits without a sign: on a small processor that is one multiplication and one division.
fn share(t: i32, sum: i32, x: i32) -> i32
    requires { Period t × Time x × (t <ℤ sum) × (x ≤ℤ sum) }
    ensures { result ≡ share_of t sum x }
{
    let product = (x as u32) * (t as u32);
    (product / (sum as u32)) as i32
}

// The clipping rule: both times keep their proportion, and so the voltage its angle.
// (It takes two numbers, as a `Times` says whether they have been clipped.)
#[tactic(auto, unfolding(crate::specs::Modulation::clipped_times, crate::specs::Modulation::cut))]
fn clip(t: i32, t1: i32, t2: i32) -> Times
    requires { Period t × Time t1 × Time t2 }
    ensures { result ≡ clipped_times t t1 t2 }
{
    let sum = t1 + t2;
    if t < sum {
        Times {
            t1: share(t, sum, t1),
            t2: share(t, sum, t2),
            clipped: true,
        }
    } else {
        Times {
            t1,
            t2,
            clipped: false,
        }
    }
}

// The compare of the phase that goes on first.
fn first_compare(t: i32, h: Times) -> i32
    requires { Period t × Room t h }
    ensures value { result ≡ compare_at First t h.t1 h.t2 }
    ensures within { InPeriod t result }
{
    fixed::down(i64::from(t - h.t1 - h.t2), 2) as i32
}

// The compare of a phase whose turn is k.
#[tactic(auto, unfolding(crate::specs::Modulation::compare_at))]
fn compare(k: Turn, t: i32, h: Times) -> i32
    requires { Period t × Room t h }
    ensures { result ≡ compare_at k t h.t1 h.t2 }
{
    let first = first_compare(t, h);
    match k {
        First => first,
        Second => first + h.t1,
        Third => first + h.t1 + h.t2,
    }
}

#[tactic(auto, unfolding(crate::specs::Modulation::placed))]
fn place(t: i32, r: Sector, h: Times) -> Pulses
    requires { Period t × Room t h }
    ensures { result ≡ placed t r h }
{
    Pulses {
        a: compare(r.a, t, h),
        b: compare(r.b, t, h),
        c: compare(r.c, t, h),
        clipped: h.clipped,
    }
}

// The compares of the phases a, b and c in a period t, for the voltage (va, vb). (Two numbers, since this crate knows no frames.)
pub fn modulate(t: i32, va: i32, vb: i32) -> Pulses
    requires { Period t × (nat_abs va ≤ 8192) × (nat_abs vb ≤ 8192) }
    ensures { result ≡ modulated t va vb }
{
    let e = entries_of(va, vb);
    let r = sector_at(sector_number(e), e);
    let h = clip(t, time(t, r.t1), time(t, r.t2));
    place(t, r, h)
}
