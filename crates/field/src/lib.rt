// The flux model: how much flux the rotor has, how fast it slips, and at which angle it stands.
#![tactic(auto)]

ghost use Rattle.std.specs.Prelude.{◌≡◌, ◌≤◌, nat_abs, ◌+ℤ◌};
ghost use Rattle.field.specs.Field.{
  fine_next,
  flux_of,
  slip as slip_of,
  angle_next,
  followed as followed_of,
  fine_end,
  flux_end,
  slip_end,
  speed_end,
  angles,
  still as still_of,
  field_ok,
  FieldSized,
};

// The flux is kept with twelve bits more than it is read with: small rises would else round away, and it would rest below d.
#[repr(C)]
#[derive(Clone, Copy)]
pub struct Field {
    pub fine: i32,
    pub angle: i32,
}

// What the motor is, to this model: how fast the flux follows, the slip for a q current, the angle in a step.
#[derive(Clone, Copy)]
pub struct Motor {
    pub kr: i32,
    pub kt: i32,
    pub kth: i32,
}

// The fine flux follows 4096·d with the rotor's time constant. The gap fits 32 bits, its product with Kr does not: `scaled` forms it in 64.
fn fine_next(kr: i32, fine: i32, d: i32) -> i32
    requires { (nat_abs kr ≤ 4096) × (nat_abs fine ≤ fine_end) × (nat_abs d ≤ flux_end) }
    ensures { result ≡ fine_next kr fine d }
{
    let change = fixed::scaled(kr, 4096 * d - fine, 4096) as i32;
    fine + change
}

// The flux, which is what everything else reads.
pub fn flux_of(fine: i32) -> i32
    ensures { result ≡ flux_of fine }
{
    fixed::down(i64::from(fine), 4096) as i32
}

// The slip; where there is hardly any flux it is not divided by.
#[tactic(auto, unfolding(crate::specs::Field::slip))]
fn slip(kt: i32, flux: i32, q: i32) -> i32
    ensures { result ≡ slip_of kt flux q }
{
    if flux < 41 {
        0
    } else {
        fixed::hold_to(fixed::scaled(kt, q, flux), 16383)
    }
}

// The angle after the step, from the speed n and the slip s. A negative angle comes round from the top.
#[tactic(auto, using(crate::proofs::Turns::turning))]
fn angle_next(kth: i32, angle: i32, n: i32, s: i32) -> i32
    requires { (nat_abs kth ≤ 8191) × (nat_abs angle ≤ angles.hi) × (nat_abs n ≤ speed_end) × (nat_abs s ≤ slip_end) }
    ensures { result ≡ angle_next kth angle (n +ℤ s) }
{
    let a = i64::from(angle) + fixed::scaled(kth, n + s, 4096);
    a.rem_euclid(65536) as i32
}

// Rule 6, from the currents d and q and the speed n. (d and q are no pair here: the flux follows d, and q makes the slip.)
#[tactic(auto, using(crate::proofs::FieldLaws::slip_size), unfolding(crate::specs::Field::followed))]
pub fn followed(m: Motor, f: Field, d: i32, q: i32, n: i32) -> Field
    requires { FieldSized m.kr m.kt m.kth f d q n }
    ensures { result ≡ followed_of m.kr m.kt m.kth f d q n }
{
    let old = f.fine;
    let fine = fine_next(m.kr, old, d);
    let flux = flux_of(fine);
    let s = slip(m.kt, flux, q);
    Field {
        fine,
        angle: angle_next(m.kth, f.angle, n, s),
    }
}

// The field of a fresh drive.
pub fn still() -> Field
    ensures { result ≡ still_of }
{
    Field { fine: 0, angle: 0 }
}

// Whether the words of any field are in range.
#[tactic(auto, unfolding(crate::specs::Field::field_ok, fixed::specs::Fixed::inside))]
pub fn field_ok(f: Field) -> bool
    ensures { result ≡ field_ok f }
{
    fixed::within(-81920000, 81920000, f.fine) & fixed::within(0, 65535, f.angle)
}
