// The drive record: which words are in range. Every test takes any words at all.
#![tactic(auto)]

ghost use Rattle.std.specs.Prelude.{◌≡◌};
ghost use Rattle.drive_record.specs.Record.{command_ok, integrals_ok, words_ok, sound as sound_of};

use field::Field;
use settings::Settings;
use shaft::Shaft;

// The ends of targets and speed references.
pub const TARGET_END: i32 = 8191;

pub const TARGET_BACK: i32 = -TARGET_END;

// The target, and the three references: speed, torque, flux.
#[repr(C)]
#[derive(Clone, Copy)]
pub struct Command {
    pub target: i32,
    pub reference: i32,
    pub torque: i32,
    pub flux: i32,
}

// The integrals of the three regulators.
#[repr(C)]
#[derive(Clone, Copy)]
pub struct Integrals {
    pub speed: i32,
    pub d: i32,
    pub q: i32,
}

// All words are 32 bits wide, so that a word out of its range can be told and refused.
#[repr(C)]
#[derive(Clone, Copy)]
pub struct Drive {
    pub settings: Settings,
    pub shaft: Shaft,
    pub command: Command,
    pub field: Field,
    pub integrals: Integrals,
    // a word of its own, as include/mirgalhet.h has it; the other words stand whether it is set or not
    pub tripped: bool,
}

fn command_ok(s: Settings, c: Command) -> bool
    ensures { result ≡ command_ok s c }
{
    fixed::within(TARGET_BACK, TARGET_END, c.target)
        & fixed::within(TARGET_BACK, TARGET_END, c.reference)
        & fixed::inside(s.q as i64, c.torque)
        & fixed::within(0, s.f, c.flux)
}

fn integrals_ok(s: Settings, x: Integrals) -> bool
    ensures { result ≡ integrals_ok s x }
{
    fixed::inside(s.q as i64, x.speed)
        & fixed::inside(s.v as i64, x.d)
        & fixed::inside(s.v as i64, x.q)
}

// Whether all words but the settings are in range.
pub fn words_ok(d: Drive) -> bool
    ensures { result ≡ words_ok d }
{
    shaft::shaft_ok(d.shaft)
        & command_ok(d.settings, d.command)
        & field::field_ok(d.field)
        & integrals_ok(d.settings, d.integrals)
}

// Whether a record is one that a call may work on: number 14 is given where it is not. The words are looked at once the settings have passed, so
// that fewer numbers are at hand at a time.
#[tactic(auto, unfolding(crate::specs::Record::sound))]
pub fn sound(d: Drive) -> bool
    ensures { result ≡ sound_of d }
{
    if !settings::is_accepted(d.settings) {
        return false;
    }
    words_ok(d)
}
