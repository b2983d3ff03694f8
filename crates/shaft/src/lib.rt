// Encoder, window, speed, ramp and field weakening: rules 1 and 2 of docs/RULES.md, but for the speed regulator.
#![tactic(auto)]

ghost use Rattle.std.specs.Prelude.{◌≡◌, ◌≤◌, pos, unsigned_abs};
ghost use Rattle.shaft.specs.Shaft.{
  movement as movement_of,
  moved as moved_of,
  counted as counted_of,
  thirtieth as is_thirtieth,
  speed_of,
  measured as measured_of,
  ramped_to,
  weakened as weakened_of,
  farthest,
  fastest,
  unmoved as unmoved_of,
  shaft_ok,
  Count,
  ShaftSized,
};

// The highest count, and the most steps that stand in the window: one more is a tick.
pub const LAST_COUNT: i32 = 65535;

const LAST_STEP: i32 = 29;

// The highest speed, and the highest backwards.
const FASTEST: i32 = 16383;

const BACKWARDS: i32 = -FASTEST;

// What is known of the shaft: the last count and whether there was one, the movements and steps of the window, the speed.
#[repr(C)]
#[derive(Clone, Copy, Default)]
pub struct Shaft {
    // with the flag no Option: two words of the record, as include/mirgalhet.h has them
    pub count: i32,
    pub seen: bool,
    pub sum: i32,
    pub steps: i32,
    pub speed: i32,
}

// A count that has come round the counter's end is a movement the other way.
#[tactic(auto, using(crate::proofs::Counts::turned))]
fn movement(count: i32, previous: i32) -> i32
    requires { Count count × Count previous }
    ensures value { result ≡ movement_of count previous }
    ensures size { unsigned_abs result ≤ farthest }
{
    let turned = (count as u16).wrapping_sub(previous as u16);
    i32::from(turned.cast_signed())
}

// The movement of a step; a drive that has seen no count yet has nothing to take it from.
#[tactic(auto, unfolding(crate::specs::Shaft::moved))]
fn moved(s: Shaft, count: i32) -> i32
    requires { ShaftSized s × Count count }
    ensures value { result ≡ moved_of s count }
    ensures size { unsigned_abs result ≤ farthest }
{
    if s.seen { movement(count, s.count) } else { 0 }
}

// Rule 1.
#[tactic(auto, unfolding(crate::specs::Shaft::counted))]
pub fn counted(s: Shaft, count: i32) -> Shaft
    requires { ShaftSized s × Count count }
    ensures { result ≡ counted_of s count }
{
    let m = moved(s, count);
    Shaft {
        count,
        seen: true,
        sum: s.sum + m,
        steps: s.steps + 1,
        ..s
    }
}

// Whether the step to come is a 30th.
#[tactic(auto, unfolding(crate::specs::Shaft::thirtieth))]
pub fn thirtieth(s: Shaft) -> bool
    ensures { result ≡ is_thirtieth s }
{
    s.steps == LAST_STEP
}

#[tactic(auto, unfolding(crate::specs::Shaft::speed_of))]
fn speed_of(sum: i32, kn: i32) -> i32
    ensures { result ≡ speed_of sum kn }
{
    fixed::hold_to(fixed::scaled(sum, kn, 256), FASTEST)
}

// The speed of the window, which restarts.
#[tactic(auto, unfolding(crate::specs::Shaft::measured))]
pub fn measured(s: Shaft, kn: i32) -> Shaft
    ensures { result ≡ measured_of s kn }
{
    let speed = speed_of(s.sum, kn);
    Shaft {
        sum: 0,
        steps: 0,
        speed,
        ..s
    }
}

// The reference after one move towards the target.
#[tactic(auto, using(crate::proofs::Ramp::ramp_small), unfolding(crate::specs::Shaft::ramped_to))]
pub fn ramped_to(reference: i32, target: i32, r: i32) -> i32
    requires { (unsigned_abs reference ≤ 8191) × (unsigned_abs target ≤ 8191) × (unsigned_abs r ≤ 8191) }
    ensures { result ≡ ramped_to reference target r }
{
    let at = i64::from(reference);
    let by = i64::from(r);
    fixed::hold(i64::from(target), at - by, at + by) as i32
}

// The flux reference: above speed 1.0 it falls as the speed rises, so that the voltage suffices.
#[tactic(auto, unfolding(crate::specs::Shaft::weakened, crate::specs::Shaft::size_of))]
pub fn weakened(f: i32, n: i32) -> i32
    requires { (unsigned_abs f ≤ 8191) × (unsigned_abs n ≤ fastest) }
    ensures { result ≡ weakened_of f n }
{
    let m = n.abs();
    // named, so that a wrong test changes a fact of the proof and not a name
    let slow = m <= 4096;
    if slow {
        f
    } else {
        fixed::scaled(f, 4096, m) as i32
    }
}

// The shaft of a fresh drive.
pub fn unmoved() -> Shaft
    ensures { result ≡ unmoved_of }
{
    Shaft::default()
}

// Whether the words of any shaft are in range.
#[tactic(auto, unfolding(crate::specs::Shaft::shaft_ok, fixed::specs::Fixed::inside))]
pub fn shaft_ok(s: Shaft) -> bool
    ensures { result ≡ shaft_ok s }
{
    fixed::within(0, LAST_COUNT, s.count)
        & fixed::within(0, LAST_STEP, s.steps)
        & fixed::inside(fixed::times(32768, s.steps), s.sum)
        & fixed::within(BACKWARDS, FASTEST, s.speed)
}
