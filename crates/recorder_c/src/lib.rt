// The calls of `recorder` for C: each is the library's, with its clauses, under the name that include/mirgalhet.h declares.
#![tactic(auto)]

ghost use Rattle.std.specs.Prelude.{◌≡◌, pos};
ghost use Rattle.drive.specs.Calls.{stepped, cleared, made, made_number};
ghost use Rattle.interrupt.specs.Interrupt.{output_of, drive_or};
ghost use Rattle.moments.specs.Moments.{kept, emptied_by, real_rows, moment_at};

use drive_record::Drive;
use interrupt::Output;
use moments::{Found, Moments};
use settings::Settings;

#[unsafe(no_mangle)]
pub extern "C" fn mirgalhet_recorded_step(
    d: &mut Drive,
    m: &mut Moments,
    ia: i32,
    ib: i32,
    count: i32,
) -> Output
    ensures { (result ≡ output_of (stepped d.old ia ib count))
        × (d.new ≡ (stepped d.old ia ib count).drive)
        × (m.new ≡ kept m.old ia ib (stepped d.old ia ib count)) }
{
    recorder::mirgalhet_recorded_step(d, m, ia, ib, count)
}

#[unsafe(no_mangle)]
pub extern "C" fn mirgalhet_recorded_clear(d: &mut Drive, m: &mut Moments) -> i32
    ensures { (result ≡ (cleared d.old).number)
        × (d.new ≡ (cleared d.old).drive)
        × (m.new ≡ emptied_by m.old (cleared d.old).number) }
{
    recorder::mirgalhet_recorded_clear(d, m)
}

#[unsafe(no_mangle)]
pub extern "C" fn mirgalhet_recorded_start(
    d: &mut Drive,
    m: &mut Moments,
    settings: Settings,
) -> i32
    ensures { (result ≡ made_number (made settings))
        × (d.new ≡ drive_or d.old (made settings))
        × (m.new ≡ emptied_by m.old (made_number (made settings))) }
{
    recorder::mirgalhet_recorded_start(d, m, settings)
}

#[unsafe(no_mangle)]
pub extern "C" fn mirgalhet_recorded_count(m: &Moments) -> i32
    ensures { result ≡ pos (real_rows m.now) }
{
    recorder::mirgalhet_recorded_count(m)
}

#[unsafe(no_mangle)]
pub extern "C" fn mirgalhet_recorded_row(m: &Moments, i: i32) -> Found
    ensures { result ≡ moment_at m.now i }
{
    recorder::mirgalhet_recorded_row(m, i)
}
