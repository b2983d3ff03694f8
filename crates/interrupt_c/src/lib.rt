// The calls of `interrupt` for C: each is the library's, with its clauses, under the name that include/mirgalhet.h declares.
#![tactic(auto)]

ghost use Rattle.std.specs.Prelude.{◌≡◌};
ghost use Rattle.field.specs.Field.{flux_of};
ghost use Rattle.drive.specs.Calls.{made, made_number, stepped, targeted, cleared};
ghost use Rattle.interrupt.specs.Interrupt.{output_of, drive_or};

use drive_record::Drive;
use interrupt::Output;
use settings::Settings;

#[unsafe(no_mangle)]
pub extern "C" fn mirgalhet_step(d: &mut Drive, ia: i32, ib: i32, count: i32) -> Output
    ensures { (result ≡ output_of (stepped d.old ia ib count)) × (d.new ≡ (stepped d.old ia ib count).drive) }
{
    interrupt::mirgalhet_step(d, ia, ib, count)
}

#[unsafe(no_mangle)]
pub extern "C" fn mirgalhet_target(d: &mut Drive, wanted: i32) -> i32
    ensures { (result ≡ (targeted d.old wanted).number) × (d.new ≡ (targeted d.old wanted).drive) }
{
    interrupt::mirgalhet_target(d, wanted)
}

#[unsafe(no_mangle)]
pub extern "C" fn mirgalhet_clear(d: &mut Drive) -> i32
    ensures { (result ≡ (cleared d.old).number) × (d.new ≡ (cleared d.old).drive) }
{
    interrupt::mirgalhet_clear(d)
}

#[unsafe(no_mangle)]
pub extern "C" fn mirgalhet_start(d: &mut Drive, settings: Settings) -> i32
    ensures { (result ≡ made_number (made settings)) × (d.new ≡ drive_or d.old (made settings)) }
{
    interrupt::mirgalhet_start(d, settings)
}

#[unsafe(no_mangle)]
pub extern "C" fn mirgalhet_flux(fine: i32) -> i32
    ensures { result ≡ flux_of fine }
{
    interrupt::mirgalhet_flux(fine)
}
