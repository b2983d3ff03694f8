// The interrupt side: the drive record lies where C has it and is changed in place. A step, a target and a clear hand the record to the function of
// `drive` that takes it by value, store the record that comes back, and answer with the rest; a start stores a fresh one. The calls move the record
// whole and look at no word of it.
#![tactic(auto)]

ghost use Rattle.std.specs.Prelude.{◌≡◌};
ghost use Rattle.field.specs.Field.{flux_of};
ghost use Rattle.drive.specs.Calls.{made, made_number, stepped, targeted, cleared};
ghost use Rattle.interrupt.specs.Interrupt.{output_of, drive_or};

use drive_record::Drive;
use settings::Settings;
use stages::Stepped;

// What a step answers: the compares of the phases a, b and c, the rules' number, whether the voltage was more than the period
// holds, and the voltage that was modulated. Numbers and a flag, as include/mirgalhet.h has them for C.
#[repr(C)]
#[derive(Clone, Copy)]
pub struct Output {
    pub a: i32,
    pub b: i32,
    pub c: i32,
    pub number: i32,
    pub clipped: bool,
    pub alpha: i32,
    pub beta: i32,
}

impl From<Stepped> for Output {
    ghost use Rattle.interrupt.specs.Interrupt.{output_of};

    ghost from_gives = { λ s output. output ≡ output_of s };

    fn from(s: Stepped) -> Output {
        Output {
            a: s.pulses.a,
            b: s.pulses.b,
            c: s.pulses.c,
            number: s.number,
            clipped: s.pulses.clipped,
            alpha: s.voltage.alpha,
            beta: s.voltage.beta,
        }
    }
}

// The record changed in place by one step. The sample is three numbers, as include/mirgalhet.h has it.
pub fn mirgalhet_step(d: &mut Drive, ia: i32, ib: i32, count: i32) -> Output
    ensures { (result ≡ output_of (stepped d.old ia ib count)) × (d.new ≡ (stepped d.old ia ib count).drive) }
{
    let s = drive::step(*d, ia, ib, count);
    *d = s.drive;
    Output::from(s)
}

// A new target for the speed reference of the record in place.
pub fn mirgalhet_target(d: &mut Drive, wanted: i32) -> i32
    ensures { (result ≡ (targeted d.old wanted).number) × (d.new ≡ (targeted d.old wanted).drive) }
{
    let t = drive::target(*d, wanted);
    *d = t.drive;
    t.number
}

// After a trip: the record in place becomes the fresh drive of its settings.
pub fn mirgalhet_clear(d: &mut Drive) -> i32
    ensures { (result ≡ (cleared d.old).number) × (d.new ≡ (cleared d.old).drive) }
{
    let c = drive::clear(*d);
    *d = c.drive;
    c.number
}

// A fresh drive with these settings in the place of the record; where they are refused the record stays as it was.
pub fn mirgalhet_start(d: &mut Drive, settings: Settings) -> i32
    ensures { (result ≡ made_number (made settings)) × (d.new ≡ drive_or d.old (made settings)) }
{
    let made = drive::make(settings);
    if let Ok(fresh) = made {
        *d = fresh;
    }
    drive::number_of(made)
}

// The flux of a record's word `fine`, for whoever reads the record: C's own division rounds the other way below 0.
pub fn mirgalhet_flux(fine: i32) -> i32
    ensures { result ≡ flux_of fine }
{
    field::flux_of(fine)
}
