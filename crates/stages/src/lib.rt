// The stages of a step, rules 1 to 9: each asks for a record that is sound, and for samples that are in range.
#![tactic(auto)]

ghost use Rattle.std.specs.Prelude.{◌≡◌, true, ◌≤◌, nat_abs, ◌-ℤ◌};
ghost use Rattle.sine.specs.Sine.{sine_at, cosine_at, Angle};
ghost use Rattle.regulator.specs.Regulator.{RegulatorSized};
ghost use Rattle.shaft.specs.Shaft.{fastest, Count};
ghost use Rattle.drive_record.specs.Record.{sound as sound_of};
ghost use Rattle.stages.specs.Step.{
  speed_gains,
  current_gains,
  steered as steered_of,
  ramped_by,
  with_command,
  commanded as commanded_of,
  rules_1_and_2,
  currents as currents_of,
  field_after,
  voltage_for,
  with_field,
  rules_6_to_9,
  advanced,
  sample_ok,
  ErrorSized,
  Currents,
  SoundWithCurrents,
  SineCosineSized,
};

use drive_record::{Command, Drive, Integrals};
use field::{Field, Motor};
use frames::{Heading, Rotor, Stator};
use modulation::Pulses;
use regulator::{Gains, Regulated};
use settings::Settings;
use shaft::Shaft;

// What a step answers; the voltage is the one that was modulated, before clipping.
#[derive(Clone, Copy)]
pub struct Stepped {
    pub drive: Drive,
    // the rules' number, 0 where none refuses: promises/specs/Demand1 `StepTable` and Demand3 `EachStep` read it of this record, and there are compares
    // with every number; as a type of its own with a model it was tried, and the proofs over the bits of this record did not close
    pub number: i32,
    pub pulses: Pulses,
    pub voltage: Stator,
}

// What the current regulators ask for, and the integrals after it.
#[derive(Clone, Copy)]
pub struct Voltage {
    pub asked: Rotor,
    pub integrals: Integrals,
}

// The speed regulator's gains, and those of the current regulators, which d and q share.
#[tactic(auto, unfolding(crate::specs::Step::speed_gains))]
fn speed_gains(s: Settings) -> Gains
    ensures { result ≡ speed_gains s }
{
    Gains {
        kp: s.skp,
        kcor: s.skcor,
        ki: s.ski,
    }
}

// The settings' words have names and no index, as C has them, so that one function for both sets would still name these three.
#[tactic(auto, unfolding(crate::specs::Step::current_gains))]
fn current_gains(s: Settings) -> Gains
    ensures { result ≡ current_gains s }
{
    Gains {
        kp: s.ckp,
        kcor: s.ckcor,
        ki: s.cki,
    }
}

// A regulator, for speed, d or q: from its integral x, what is wanted and what is.
fn steered(x: i32, wanted: i32, actual: i32, g: Gains, limit: i32) -> Regulated
    requires { ErrorSized x wanted actual × RegulatorSized x (wanted -ℤ actual) g limit }
    ensures { result ≡ steered_of x wanted actual g limit }
{
    regulator::regulate(x, wanted - actual, g, limit)
}

// Ramp and weakening, on the speed n. That a record is sound is a clause, here and below, and no type: `advance`, which docs/PROMISES.md names, would ask
// more of its callers.
fn ramped_by(d: Drive, n: i32) -> Command
    requires { (sound_of d ≡ true) × (nat_abs n ≤ fastest) }
    ensures { result ≡ ramped_by d n }
{
    let reference = shaft::ramped_to(d.command.reference, d.command.target, d.settings.r);
    let flux = shaft::weakened(d.settings.f, n);
    Command {
        reference,
        flux,
        ..d.command
    }
}

#[tactic(auto, unfolding(crate::specs::Step::with_command, crate::specs::Step::with_torque, crate::specs::Step::with_speed))]
fn with_command(d: Drive, s: Shaft, c: Command, u: Regulated) -> Drive
    ensures { result ≡ with_command d s c u }
{
    Drive {
        shaft: s,
        command: Command { torque: u.out, ..c },
        integrals: Integrals {
            speed: u.x,
            ..d.integrals
        },
        ..d
    }
}

// Rule 2, on a shaft whose speed has been measured.
fn commanded(d: Drive, s: Shaft) -> Drive
    requires { (sound_of d ≡ true) × (nat_abs s.speed ≤ fastest) }
    ensures { result ≡ commanded_of d s }
{
    let c = ramped_by(d, s.speed);
    let g = speed_gains(d.settings);
    let u = steered(d.integrals.speed, c.reference, s.speed, g, d.settings.q);
    with_command(d, s, c, u)
}

// Rules 1 and 2.
fn rules_1_and_2(d: Drive, count: i32) -> Drive
    requires { (sound_of d ≡ true) × Count count }
    ensures { result ≡ rules_1_and_2 d count }
{
    let s = shaft::counted(d.shaft, count);
    if shaft::thirtieth(d.shaft) {
        commanded(d, shaft::measured(s, d.settings.kn))
    } else {
        Drive { shaft: s, ..d }
    }
}

// Rule 4.
fn heading(angle: i32) -> Heading
    requires { Angle angle }
    ensures sin_is { result.sin ≡ sine_at angle }
    ensures cos_is { result.cos ≡ cosine_at angle }
{
    Heading {
        sin: sine::sine(angle),
        cos: sine::cosine(angle),
    }
}

// Rules 3 and 5.
#[tactic(auto, unfolding(crate::specs::Step::currents))]
fn currents(ia: i32, ib: i32, h: Heading) -> Rotor
    requires { Currents ia ib × SineCosineSized h.sin h.cos }
    ensures { result ≡ currents_of ia ib h.sin h.cos }
{
    frames::park(frames::clarke(ia, ib), h)
}

// Rule 6.
fn field_after(d: Drive, i: Rotor) -> Field
    requires { SoundWithCurrents d i }
    ensures { result ≡ field_after d i }
{
    let s = d.settings;
    let m = Motor {
        kr: s.kr,
        kt: s.kt,
        kth: s.kth,
    };
    field::followed(m, d.field, i.d, i.q, d.shaft.speed)
}

// Rule 7.
fn voltage_for(d: Drive, i: Rotor) -> Voltage
    requires { SoundWithCurrents d i }
    ensures { result ≡ voltage_for d i }
{
    let g = current_gains(d.settings);
    let u = steered(d.integrals.d, d.command.flux, i.d, g, d.settings.v);
    let w = steered(d.integrals.q, d.command.torque, i.q, g, d.settings.v);
    Voltage {
        asked: Rotor { d: u.out, q: w.out },
        integrals: Integrals {
            d: u.x,
            q: w.x,
            ..d.integrals
        },
    }
}

#[tactic(auto, unfolding(crate::specs::Step::with_field))]
fn with_field(d: Drive, f: Field, x: Integrals) -> Drive
    ensures { result ≡ with_field d f x }
{
    Drive {
        field: f,
        integrals: x,
        ..d
    }
}

// Rules 6 to 9. The heading is the old angle's, for Park and for inverse Park.
fn rules_6_to_9(d: Drive, i: Rotor, h: Heading) -> Stepped
    requires { SoundWithCurrents d i × SineCosineSized h.sin h.cos }
    ensures { result ≡ rules_6_to_9 d i h.sin h.cos }
{
    let f = field_after(d, i);
    let u = voltage_for(d, i);
    let v = frames::inverse_park(u.asked, h);
    let t = d.settings.t;
    let pulses = modulation::modulate(t, v.alpha, v.beta);
    Stepped {
        drive: with_field(d, f, u.integrals),
        number: 0,
        pulses,
        voltage: v,
    }
}

// One accepted step. The sample is three numbers, here and below, as it is of `drive::step`.
pub fn advance(d: Drive, ia: i32, ib: i32, count: i32) -> Stepped
    requires { (sound_of d ≡ true) × (sample_ok ia ib count ≡ true) }
    ensures { result ≡ advanced d ia ib count }
{
    let h = heading(d.field.angle);
    let n = rules_1_and_2(d, count);
    rules_6_to_9(n, currents(ia, ib, h), h)
}

// The ends of samples of current, and of their sum.
const SAMPLE_END: i32 = 8191;

const SAMPLE_BACK: i32 = -SAMPLE_END;

// ia and ib are tested before their sum is formed.
#[tactic(auto, unfolding(crate::specs::Step::sample_ok, fixed::specs::Fixed::inside))]
pub fn sample_ok(ia: i32, ib: i32, count: i32) -> bool
    ensures { result ≡ sample_ok ia ib count }
{
    if fixed::within(SAMPLE_BACK, SAMPLE_END, ia) & fixed::within(SAMPLE_BACK, SAMPLE_END, ib) {
        fixed::within(SAMPLE_BACK, SAMPLE_END, ia + ib) & fixed::within(0, shaft::LAST_COUNT, count)
    } else {
        false
    }
}
