// The run: rows of samples, each one step. It takes any record, any samples and any output, and answers with a number of docs/RULES.md.
#![tactic(auto)]

ghost use Rattle.std.specs.Prelude.{◌≡◌, true, ◌++◌, ◌+◌, ◌*◌, ◌≤◌, length, drop};
ghost use Rattle.drive_record.specs.Record.{sound as sound_of};
ghost use Rattle.fixed.specs.Refusal.{number_of};
ghost use Rattle.rows.specs.Rows.{
  one,
  is_accepted,
  is_clipped,
  four,
  row_stepped,
  no_rows,
  ran_of,
  written_of,
  rows_fit,
  run_of,
  output_after,
};

use drive_record::Drive;
use fixed::refusal::Refusal;
use stages::Stepped;

// What a run answers: the drive after it, its own number, how many steps were accepted and how many of those were clipped.
#[derive(Clone, Copy)]
pub struct Ran {
    pub drive: Drive,
    // the rules' number, 0 where none refuses: promises/specs/Demand1 `RunTable` reads it of this record
    pub number: i32,
    pub accepted: usize,
    pub clipped: usize,
}

// Row i as one step. The record has been tested, and a step leaves it sound, so that no row tests it again; that it is sound is a clause, here and below,
// as it is of `drive::step_sound`.
fn row_step(d: Drive, samples: &[i32], i: usize) -> Stepped
    requires { (sound_of d ≡ true) × (3 * i + 3 ≤ length samples.now) }
    ensures { result ≡ row_stepped d samples.now i }
{
    let ia = samples[3 * i];
    let ib = samples[3 * i + 1];
    let count = samples[3 * i + 2];
    drive::step_sound(d, ia, ib, count)
}

// The three compares and the number of a step.
#[tactic(auto, unfolding(crate::specs::Rows::four))]
fn put_row(out: &mut [i32], s: Stepped)
    requires { length out.old ≡ 4 }
    ensures { out.new ≡ four s }
{
    out.copy_from_slice(&[s.pulses.a, s.pulses.b, s.pulses.c, s.number]);
}

fn accepted_in(s: Stepped) -> usize
    ensures { result ≡ one (is_accepted s) }
{
    usize::from(s.number == 0)
}

fn clipped_in(s: Stepped) -> usize
    ensures { result ≡ one (is_clipped s) }
{
    usize::from((s.number == 0) & s.pulses.clipped)
}

// The first n rows, by their places: row i is read at 3·i and written at 4·i, as rows/specs/Rows `row_stepped` and `written_of` have it.
fn rows_run(d: Drive, samples: &[i32], out: &mut [i32], n: usize) -> Ran
    requires { (sound_of d ≡ true) × (3 * n ≤ length samples.now) × (4 * n ≤ length out.old) }
    ensures { (result ≡ ran_of d samples.now n) × (out.new ≡ written_of d samples.now n ++ drop (4 * n) out.old) }
{
    let mut cur = d;
    let mut accepted: usize = 0;
    let mut clipped: usize = 0;
    for i in 0..n {
        let s = row_step(cur, samples, i);
        put_row(&mut out[4 * i..4 * i + 4], s);
        accepted += accepted_in(s);
        clipped += clipped_in(s);
        cur = s.drive;
    }
    Ran {
        drive: cur,
        number: 0,
        accepted,
        clipped,
    }
}

// No row taken.
#[tactic(auto, unfolding(crate::specs::Rows::no_rows))]
fn no_rows(d: Drive, why: Refusal) -> Ran
    ensures { result ≡ no_rows d (number_of why) }
{
    Ran {
        drive: d,
        number: why.number(),
        accepted: 0,
        clipped: 0,
    }
}

// Whether samples are in threes and output is there for four numbers a row. The rows are counted against the output in fours, so that no
// product of lengths is formed.
#[tactic(auto, unfolding(crate::specs::Rows::rows_fit))]
fn rows_fit(samples: usize, out: usize) -> bool
    ensures { result ≡ rows_fit samples out }
{
    (samples % 3 == 0) & (samples / 3 <= out / 4)
}

// Each row of three samples as one step, which writes four numbers. Nothing is written where the run is refused.
pub fn run(d: Drive, samples: &[i32], out: &mut [i32]) -> Ran
    ensures { (result ≡ run_of d samples.now out.old) × (out.new ≡ output_after d samples.now out.old) }
{
    // two names, so that a wrong test changes a fact of the proof and not a name
    let intact = drive_record::sound(d);
    let broken = !intact;
    if broken {
        return no_rows(d, Refusal::Broken);
    }
    if !rows_fit(samples.len(), out.len()) {
        return no_rows(d, Refusal::Rows);
    }
    let n = samples.len() / 3;
    rows_run(d, samples, out, n)
}
