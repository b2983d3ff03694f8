// The regulator: proportional part, output held to its limits, integral corrected by what the limits took off.
#![tactic(auto)]

ghost use Rattle.std.specs.Prelude.{◌≡◌};
ghost use Rattle.regulator.specs.Regulator.{regulated, RegulatorSized};

#[derive(Clone, Copy)]
pub struct Gains {
    pub kp: i32,
    pub kcor: i32,
    pub ki: i32,
}

// The output, and the integral after the step.
#[derive(Clone, Copy)]
pub struct Regulated {
    pub out: i32,
    pub x: i32,
}

// One step from the integral x and the error e. The term (out − u)·Kcor is what keeps the integral from climbing while the output is held.
pub fn regulate(x: i32, e: i32, g: Gains, limit: i32) -> Regulated
    requires { RegulatorSized x e g limit }
    ensures { result ≡ regulated x e g limit }
{
    let at = i64::from(x);
    // 32 bits hold it, and say so to the optimiser
    let rise = fixed::scaled(e, g.kp, 4096) as i32;
    let u = at + i64::from(rise);
    let out = fixed::hold_to(u, limit);
    let over = i64::from(out) - u;
    let change = fixed::down(fixed::times(e, g.ki) + over * i64::from(g.kcor), 4096);
    Regulated {
        out,
        x: (at + change) as i32,
    }
}
