// Clarke, Park and inverse Park. A sum of two products is rounded once, and by an explicit floor: a shift or `/` differs below zero.
#![tactic(auto)]

ghost use Rattle.std.specs.Prelude.{◌≡◌, ◌≤◌, pos, nat_abs, ◌+ℤ◌, ◌-ℤ◌, ◌*ℤ◌};
ghost use Rattle.fixed.specs.Fixed.{down as down_of};
ghost use Rattle.frames.specs.Frames.{clarke as clarke_of, park as park_of, inverse_park, FrameSized, sample_end};

// In the stator's frame, which stands still.
#[derive(Clone, Copy)]
pub struct Stator {
    pub alpha: i32,
    pub beta: i32,
}

// In the rotor flux's frame, which turns.
#[derive(Clone, Copy)]
pub struct Rotor {
    pub d: i32,
    pub q: i32,
}

// How the turning frame stands in the other: the sine and cosine of its angle, 4096 being 1.0.
#[derive(Clone, Copy)]
pub struct Heading {
    pub sin: i32,
    pub cos: i32,
}

// (a·m + b·n)/4096 down.
fn sum(a: i32, m: i32, b: i32, n: i32) -> i32
    requires { FrameSized a b m n }
    ensures { result ≡ down_of (a *ℤ m +ℤ b *ℤ n) (pos 4096) }
{
    fixed::down(fixed::times(a, m) + fixed::times(b, n), 4096) as i32
}

// (a·m − b·n)/4096 down. Another operation than the sum: as one function the two would take a sign, which the rules do not have.
fn difference(a: i32, m: i32, b: i32, n: i32) -> i32
    requires { FrameSized a b m n }
    ensures { result ≡ down_of (a *ℤ m -ℤ b *ℤ n) (pos 4096) }
{
    fixed::down(fixed::times(a, m) - fixed::times(b, n), 4096) as i32
}

pub fn clarke(ia: i32, ib: i32) -> Stator
    requires { (nat_abs ia ≤ sample_end) × (nat_abs ib ≤ sample_end) }
    ensures { result ≡ clarke_of ia ib }
{
    let beta = fixed::scaled(2 * ib + ia, 2365, 4096) as i32;
    Stator { alpha: ia, beta }
}

#[tactic(auto, unfolding(crate::specs::Frames::park))]
pub fn park(v: Stator, h: Heading) -> Rotor
    requires { FrameSized v.alpha v.beta h.sin h.cos }
    ensures { result ≡ park_of v h.sin h.cos }
{
    Rotor {
        d: sum(v.alpha, h.cos, v.beta, h.sin),
        q: difference(v.beta, h.cos, v.alpha, h.sin),
    }
}

// The way back, with the signs turned; no twin of the way there.
#[tactic(auto, unfolding(crate::specs::Frames::inverse_park))]
pub fn inverse_park(v: Rotor, h: Heading) -> Stator
    requires { FrameSized v.d v.q h.sin h.cos }
    ensures { result ≡ inverse_park v h.sin h.cos }
{
    Stator {
        alpha: difference(v.d, h.cos, v.q, h.sin),
        beta: sum(v.q, h.cos, v.d, h.sin),
    }
}
