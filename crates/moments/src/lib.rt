// The record of the last moments, beside the drive record: the rows of the last 128 accepted steps. Every call takes any drive, any record and any
// numbers. `keep`, `found_at` and `empty_if_accepted` work where the record lies. `recorded_step`, `recorded_clear`, `real_rows` and `moment` take it by
// value, since the theorems of promises/specs/Settled are of such calls.
#![tactic(auto)]

ghost use Rattle.std.specs.Prelude.{◌≡◌, ◌<◌, pos};
ghost use Rattle.moments.specs.Moments.{
  none,
  real_rows,
  put as put_of,
  row_in,
  moment_at,
  row_of,
  kept,
  recorded,
  emptied_by,
  emptied,
};

use drive::Answered;
use drive_record::Drive;
use fixed::refusal::Refusal;
use stages::Stepped;

// One accepted step: its samples, the speed after it and its compares.
#[derive(Clone, Copy)]
pub struct Row {
    pub ia: i32,
    pub ib: i32,
    pub speed: i32,
    pub a: i32,
    pub b: i32,
    pub c: i32,
}

// A ring for each quantity, the place of the next row and the count of real rows. Six rings of words and not one of rows: the C interface,
// include/mirgalhet.h `mirgalhet_moments`.
#[repr(C)]
#[derive(Clone, Copy)]
pub struct Moments {
    pub ia: [i32; 128],
    pub ib: [i32; 128],
    pub speed: [i32; 128],
    pub a: [i32; 128],
    pub b: [i32; 128],
    pub c: [i32; 128],
    pub next: i32,
    pub real: i32,
}

// What is read at an index: 0 and the row, or 19 and zeros; for C, and so a number and no Option.
#[repr(C)]
#[derive(Clone, Copy)]
pub struct Found {
    pub number: i32,
    pub ia: i32,
    pub ib: i32,
    pub speed: i32,
    pub a: i32,
    pub b: i32,
    pub c: i32,
}

impl From<Option<Row>> for Found {
    ghost use Rattle.moments.specs.Moments.{found_of};

    ghost from_gives = { λ row found. found ≡ found_of row };

    #[tactic(auto, unfolding(crate::specs::Moments::found_of, crate::specs::Moments::past))]
    fn from(row: Option<Row>) -> Found {
        match row {
            Some(r) => Found {
                number: 0,
                ia: r.ia,
                ib: r.ib,
                speed: r.speed,
                a: r.a,
                b: r.b,
                c: r.c,
            },
            None => Found {
                number: Refusal::NoRow.number(),
                ia: 0,
                ib: 0,
                speed: 0,
                a: 0,
                b: 0,
                c: 0,
            },
        }
    }
}

// What a recorded step answers: the step's answer, and the record after it.
#[derive(Clone, Copy)]
pub struct Recorded {
    pub step: Stepped,
    pub moments: Moments,
}

// What a recorded clear answers.
#[derive(Clone, Copy)]
pub struct Emptied {
    pub answer: Answered,
    pub moments: Moments,
}

// No rows, and zeros in every place.
#[tactic(auto, unfolding(crate::specs::Moments::none))]
pub fn empty() -> Moments
    ensures { result ≡ none }
{
    let zeros: [i32; 128] = [0; 128];
    Moments {
        ia: zeros,
        ib: zeros,
        speed: zeros,
        a: zeros,
        b: zeros,
        c: zeros,
        next: 0,
        real: 0,
    }
}

// A row at the next place of each ring, in place.
#[tactic(auto, unfolding(crate::specs::Moments::put, ring::specs::Ring::spot_of))]
fn put(m: &mut Moments, r: Row)
    ensures { m.new ≡ put_of m.old r }
{
    let spot = ring::spot_for(m.next, m.real);
    m.ia[spot.at] = r.ia;
    m.ib[spot.at] = r.ib;
    m.speed[spot.at] = r.speed;
    m.a[spot.at] = r.a;
    m.b[spot.at] = r.b;
    m.c[spot.at] = r.c;
    m.next = spot.next;
    m.real = spot.real;
}

// How many rows are real.
pub fn real_rows(m: Moments) -> i32
    ensures { result ≡ pos (real_rows m) }
{
    ring::count_in(m.next, m.real)
}

// What stands at a place of each ring.
#[tactic(auto, unfolding(crate::specs::Moments::row_in))]
fn row_in(m: &Moments, at: usize) -> Row
    requires { at < 128 }
    ensures { result ≡ row_in m.now at }
{
    Row {
        ia: m.ia[at],
        ib: m.ib[at],
        speed: m.speed[at],
        a: m.a[at],
        b: m.b[at],
        c: m.c[at],
    }
}

// The row i of the real rows, oldest first; 19 and zeros past them. Of the record one row is read, where it lies.
pub fn found_at(m: &Moments, i: i32) -> Found
    ensures { result ≡ moment_at m.now i }
{
    Found::from(ring::row_place(m.next, m.real, i).map(|at| row_in(m, at)))
}

// The same of a record by value.
pub fn moment(m: Moments, i: i32) -> Found
    ensures { result ≡ moment_at m i }
{
    found_at(&m, i)
}

// The row of a step that answered s.
#[tactic(auto, unfolding(crate::specs::Moments::row_of))]
pub fn row_of(ia: i32, ib: i32, s: Stepped) -> Row
    ensures { result ≡ row_of ia ib s }
{
    Row {
        ia,
        ib,
        speed: s.drive.shaft.speed,
        a: s.pulses.a,
        b: s.pulses.b,
        c: s.pulses.c,
    }
}

// The record after a step that answered s, in place. A refused step adds no row.
#[tactic(auto, using(crate::proofs::Calls::keeping))]
pub fn keep(m: &mut Moments, ia: i32, ib: i32, s: Stepped)
    ensures { m.new ≡ kept m.old ia ib s }
{
    if s.number == 0 {
        put(m, row_of(ia, ib, s));
    }
}

// One step from any drive and any sample, which answers as ever, and the record after it. The sample is three numbers, as it is of `drive::step`.
#[tactic(auto, unfolding(crate::specs::Moments::recorded))]
pub fn recorded_step(d: Drive, m: Moments, ia: i32, ib: i32, count: i32) -> Recorded
    ensures { result ≡ recorded d m ia ib count }
{
    let step = drive::step(d, ia, ib, count);
    let mut moments = m;
    keep(&mut moments, ia, ib, step);
    Recorded { step, moments }
}

// The record after a clear or a start that gave this number, in place. A refused call leaves it as it is. The number is what such a call hands to C.
#[tactic(auto, unfolding(crate::specs::Moments::emptied_by))]
pub fn empty_if_accepted(m: &mut Moments, number: i32)
    ensures { m.new ≡ emptied_by m.old number }
{
    if number == 0 {
        *m = empty();
    }
}

// After a trip: a fresh drive of the same settings, and an empty record.
#[tactic(auto, using(crate::proofs::Calls::emptied_parts))]
pub fn recorded_clear(d: Drive, m: Moments) -> Emptied
    ensures { result ≡ emptied d m }
{
    let answer = drive::clear(d);
    let mut moments = m;
    empty_if_accepted(&mut moments, answer.number);
    Emptied { answer, moments }
}
