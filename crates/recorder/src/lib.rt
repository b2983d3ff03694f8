// The record of the last moments on the interrupt side: it lies where C has it, beside the drive record. A recorded step stores one row in place, and
// a row is read in place; the rings are not copied. The drive record is changed as `interrupt` changes it.
#![tactic(auto)]

ghost use Rattle.std.specs.Prelude.{◌≡◌, pos};
ghost use Rattle.drive.specs.Calls.{stepped, cleared, made, made_number};
ghost use Rattle.interrupt.specs.Interrupt.{output_of, drive_or};
ghost use Rattle.moments.specs.Moments.{kept, emptied_by, real_rows, moment_at};

use drive_record::Drive;
use interrupt::Output;
use moments::{Found, Moments};
use settings::Settings;

// The drive record changed in place by one step, and the row of it stored beside.
pub fn mirgalhet_recorded_step(
    d: &mut Drive,
    m: &mut Moments,
    ia: i32,
    ib: i32,
    count: i32,
) -> Output
    ensures { (result ≡ output_of (stepped d.old ia ib count))
        × (d.new ≡ (stepped d.old ia ib count).drive)
        × (m.new ≡ kept m.old ia ib (stepped d.old ia ib count)) }
{
    let s = drive::step(*d, ia, ib, count);
    *d = s.drive;
    moments::keep(m, ia, ib, s);
    Output::from(s)
}

// After a trip: the drive record becomes the fresh drive of its settings, and the record beside it is emptied.
pub fn mirgalhet_recorded_clear(d: &mut Drive, m: &mut Moments) -> i32
    ensures { (result ≡ (cleared d.old).number)
        × (d.new ≡ (cleared d.old).drive)
        × (m.new ≡ emptied_by m.old (cleared d.old).number) }
{
    let number = interrupt::mirgalhet_clear(d);
    moments::empty_if_accepted(m, number);
    number
}

// A fresh drive with these settings in the drive's place, and an empty record beside it; where they are refused both stay as they were.
pub fn mirgalhet_recorded_start(d: &mut Drive, m: &mut Moments, settings: Settings) -> i32
    ensures { (result ≡ made_number (made settings))
        × (d.new ≡ drive_or d.old (made settings))
        × (m.new ≡ emptied_by m.old (made_number (made settings))) }
{
    let number = interrupt::mirgalhet_start(d, settings);
    moments::empty_if_accepted(m, number);
    number
}

// How many rows of the record in place are real.
pub fn mirgalhet_recorded_count(m: &Moments) -> i32
    ensures { result ≡ pos (real_rows m.now) }
{
    ring::count_in(m.next, m.real)
}

// The row i of the record in place, oldest first; 19 and zeros past the real rows. Of the record one row is read, wherever it stands.
pub fn mirgalhet_recorded_row(m: &Moments, i: i32) -> Found
    ensures { result ≡ moment_at m.now i }
{
    moments::found_at(m, i)
}
