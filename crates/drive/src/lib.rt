// The calls that people use, `make`, `step`, `target` and `clear`: each takes any words at all and answers with a number of docs/RULES.md. A step
// that nothing refuses goes through the stages. `step_sound` serves run and stream, which test the record once for many steps.
#![tactic(auto)]

ghost use Rattle.std.specs.Prelude.{◌≡◌, true};
ghost use Rattle.fixed.specs.Refusal.{number_of, code_of};
ghost use Rattle.drive_record.specs.Record.{sound as sound_of};
ghost use Rattle.drive.specs.Calls.{
  fresh as fresh_of,
  made,
  made_number,
  with_trip,
  refused as refused_of,
  stepped_sound,
  stepped,
  with_target,
  answered,
  targeted,
  cleared,
};

use drive_record::{Command, Drive, Integrals, TARGET_BACK, TARGET_END};
use fixed::refusal::Refusal;
use frames::Stator;
use modulation::Pulses;
use settings::Settings;
use stages::Stepped;

// What a target and a clear answer.
#[derive(Clone, Copy)]
pub struct Answered {
    pub drive: Drive,
    // the rules' number, 0 where none refuses: promises/specs/Demand1 `TargetTable` and `ClearTable` read it of this record, and C gets it
    pub number: i32,
}

// The fresh drive of settings that have been checked; of others it is a broken record, which every call refuses.
#[tactic(auto, unfolding(crate::specs::Calls::fresh))]
pub fn fresh(s: Settings) -> Drive
    ensures { result ≡ fresh_of s }
{
    Drive {
        settings: s,
        shaft: shaft::unmoved(),
        command: Command {
            target: 0,
            reference: 0,
            torque: 0,
            flux: s.f,
        },
        field: field::still(),
        integrals: Integrals {
            speed: 0,
            d: 0,
            q: 0,
        },
        tripped: false,
    }
}

// A fresh drive with these settings, or why they are refused.
#[tactic(auto, unfolding(crate::specs::Calls::made, settings::specs::Settings::checked))]
pub fn make(s: Settings) -> Result<Drive, Refusal>
    ensures { result ≡ made s }
{
    let accepted = settings::check(s)?;
    Ok(fresh(accepted))
}

// The number of what `make` answered: 0 of a drive. A function: promises/specs/Settled `NumberSettled` is of it.
pub fn number_of(m: Result<Drive, Refusal>) -> i32
    ensures { result ≡ made_number m }
{
    match m {
        Ok(_) => 0,
        Err(r) => r.number(),
    }
}

#[tactic(auto, unfolding(crate::specs::Calls::with_trip))]
fn with_trip(d: Drive) -> Drive
    ensures { result ≡ with_trip d }
{
    Drive { tripped: true, ..d }
}

#[tactic(auto, unfolding(crate::specs::Calls::refused))]
fn refused(d: Drive, t: i32, why: Refusal) -> Stepped
    ensures { result ≡ refused_of d t (number_of why) }
{
    Stepped {
        drive: d,
        number: why.number(),
        pulses: Pulses {
            a: t,
            b: t,
            c: t,
            clipped: false,
        },
        voltage: Stator { alpha: 0, beta: 0 },
    }
}

// A step on a record that has been tested: what a run does for each row. That it is sound is a clause and no type: docs/PROMISES.md names this function,
// and a type with an invariant would ask more of its callers.
#[tactic(auto, unfolding(crate::specs::Calls::stepped_sound))]
pub fn step_sound(d: Drive, ia: i32, ib: i32, count: i32) -> Stepped
    requires { sound_of d ≡ true }
    ensures { result ≡ stepped_sound d ia ib count }
{
    if d.tripped {
        return refused(d, d.settings.t, Refusal::Tripped);
    }
    if !stages::sample_ok(ia, ib, count) {
        return refused(with_trip(d), d.settings.t, Refusal::Sample);
    }
    stages::advance(d, ia, ib, count)
}

// One step from any record and any sample. The sample is three numbers and no struct, as C and the rows have it: it would be made to be taken apart.
#[tactic(auto, unfolding(crate::specs::Calls::stepped, crate::specs::Calls::stepped_sound, drive_record::specs::Record::broken))]
pub fn step(d: Drive, ia: i32, ib: i32, count: i32) -> Stepped
    ensures { result ≡ stepped d ia ib count }
{
    if !drive_record::sound(d) {
        return refused(d, 0, Refusal::Broken);
    }
    step_sound(d, ia, ib, count)
}

#[tactic(auto, unfolding(crate::specs::Calls::with_target, crate::specs::Calls::retargeted))]
fn with_target(d: Drive, wanted: i32) -> Drive
    ensures { result ≡ with_target d wanted }
{
    Drive {
        command: Command {
            target: wanted,
            ..d.command
        },
        ..d
    }
}

// A drive, and why what was asked of it is refused, if it is.
fn answer(d: Drive, why: Option<Refusal>) -> Answered
    ensures { result ≡ answered d (code_of why) }
{
    let number = match why {
        None => 0,
        Some(r) => r.number(),
    };
    Answered { drive: d, number }
}

// A new target for the speed reference.
#[tactic(auto, unfolding(crate::specs::Calls::targeted, drive_record::specs::Record::broken, fixed::specs::Fixed::inside))]
pub fn target(d: Drive, wanted: i32) -> Answered
    ensures { result ≡ targeted d wanted }
{
    if !drive_record::sound(d) {
        return answer(d, Some(Refusal::Broken));
    }
    if d.tripped {
        return answer(d, Some(Refusal::Tripped));
    }
    if !fixed::within(TARGET_BACK, TARGET_END, wanted) {
        return answer(d, Some(Refusal::Target));
    }
    answer(with_target(d, wanted), None)
}

// After a trip: a fresh drive of the same settings.
#[tactic(auto, unfolding(crate::specs::Calls::cleared, drive_record::specs::Record::broken))]
pub fn clear(d: Drive) -> Answered
    ensures { result ≡ cleared d }
{
    if !drive_record::sound(d) {
        return answer(d, Some(Refusal::Broken));
    }
    if !d.tripped {
        return answer(d, Some(Refusal::NotTripped));
    }
    answer(fresh(d.settings), None)
}
