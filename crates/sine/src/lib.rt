// Sine and cosine of an angle, from a quarter of the table.
#![tactic(auto)]

ghost use Rattle.std.specs.Prelude.{◌≡◌, ◌+◌, ◌%◌, ◌≤◌, ◌<◌, pos, nat_abs, get_or};
ghost use Rattle.sine.specs.Sine.{sine_entry, Angle, index_of, sine_at, cosine_at, kept_table, place_of, signed_at};

// Entries 0 to 64: 4096·sin(2πi/256), to the nearest whole number. A static is one table, read where it lies.
static QUARTER: [i16; 65] = [
    0, 101, 201, 301, 401, 501, 601, 700, 799, 897, 995, 1092, 1189, 1285, 1380, 1474, 1567, 1660,
    1751, 1842, 1931, 2019, 2106, 2191, 2276, 2359, 2440, 2520, 2598, 2675, 2751, 2824, 2896, 2967,
    3035, 3102, 3166, 3229, 3290, 3349, 3406, 3461, 3513, 3564, 3612, 3659, 3703, 3745, 3784, 3822,
    3857, 3889, 3920, 3948, 3973, 3996, 4017, 4036, 4052, 4065, 4076, 4085, 4091, 4095, 4096,
];

fn quarter(i: usize) -> i16
    requires { i ≤ 64 }
    ensures { result ≡ get_or kept_table i (pos 0) }
{
    QUARTER[i]
}

// Where entry k of the table stands among entries 0 to 64: there and back in each half. In this form it takes no branch.
fn place(k: usize) -> usize
    requires { k < 256 }
    ensures { result ≡ place_of k }
{
    let h = k % 128;
    if h <= 64 { h } else { 128 - h }
}

// With the sign of entry k, turned in the 16 bits of the table.
#[tactic(auto, unfolding(crate::specs::Sine::signed_at))]
fn signed(k: usize, size: i16) -> i16
    requires { nat_abs size ≤ 4096 }
    ensures { result ≡ signed_at k size }
{
    if k < 128 { size } else { -size }
}

// Entry i of the table, i counted round and round.
fn entry(i: usize) -> i16
    ensures { result ≡ sine_entry (i % 256) }
{
    let k = i % 256;
    signed(k, quarter(place(k)))
}

// The entry a quarter of a turn on. It stands as far from the end as entry i from the beginning, so that one place serves both: `entry(i + 64)` in its
// stead was tried, and takes 36 instructions for a sine and a cosine where this takes 31.
fn entry_ahead(i: usize) -> i16
    ensures { result ≡ sine_entry ((i + 64) % 256) }
{
    let k = i % 256;
    signed((k + 64) % 256, quarter(64 - place(k)))
}

// Which entry an angle reads.
#[tactic(auto, unfolding(crate::specs::Sine::index_of, fixed::specs::Fixed::down))]
fn index(angle: i32) -> usize
    requires { Angle angle }
    ensures { result ≡ index_of angle }
{
    angle as usize / 256
}

// The sine of an angle 0..65535, 65536 to the turn.
pub fn sine(angle: i32) -> i32
    requires { Angle angle }
    ensures { result ≡ sine_at angle }
{
    entry(index(angle)) as i32
}

// The cosine: a quarter of a turn on.
pub fn cosine(angle: i32) -> i32
    requires { Angle angle }
    ensures { result ≡ cosine_at angle }
{
    entry_ahead(index(angle)) as i32
}
