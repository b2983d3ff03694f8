// Values: how a whole number and a gain of a sheet are read and written.
#![tactic(auto)]

ghost use Rattle.std.specs.Prelude.{◌≡◌, ◌+◌, ◌^◌, ◌≤◌, ◌<◌, Some, length};
ghost use Rattle.writing.specs.Page.{Put, Room};
ghost use Rattle.values.specs.Value.{
  digits_of,
  whole_of,
  ths_of,
  fraction_of,
  before,
  gain_of,
  number_of,
  fraction_digits,
  gain_text,
  value_text,
};

use writing::Page;

// How many bytes stand in front of the first b; all of them where there is none.
pub fn find(s: &[u8], b: u8) -> usize
    ensures { result ≡ length (before b s.now) }
{
    s.iter().position(|c| *c == b).unwrap_or(s.len())
}

// One to n digits: their number.
#[tactic(auto, using(crate::proofs::CodeLaws::readings))]
fn digits(s: &[u8], n: usize) -> Option<u64>
    requires { n ≤ 12 }
    ensures { result ≡ digits_of n s.now }
{
    if s.is_empty() || n < s.len() {
        return None;
    }
    let mut value: u64 = 0;
    for b in s {
        if !b.is_ascii_digit() {
            return None;
        }
        value = value * 10 + u64::from(*b - b'0');
    }
    Some(value)
}

// A whole number: one to five digits, no zero before another digit.
#[tactic(auto, unfolding(crate::specs::Value::whole_of, crate::specs::Value::zero_in_front))]
fn whole(s: &[u8]) -> Option<u64>
    ensures { result ≡ whole_of s.now }
{
    if 1 < s.len() && s[0] == b'0' {
        return None;
    }
    digits(s, 5)
}

// v/10^n as 4096ths, if that is a whole number of them.
#[tactic(auto, using(crate::proofs::ValueLaws::power_some), unfolding(crate::specs::Value::ths_of))]
fn ths(v: u64, n: usize) -> Option<u64>
    requires { (v < 10 ^ 12) × (n ≤ 12) }
    ensures { result ≡ ths_of (10 ^ n) (Some v) }
{
    let p = 10u64.pow(n as u32);
    let w = v * 4096;
    if w % p == 0 { Some(w / p) } else { None }
}

// What stands behind a point: one to twelve digits, the last of them no zero, that make a whole number of 4096ths.
#[tactic(auto, using(crate::proofs::CodeLaws::fractions))]
fn fraction(s: &[u8]) -> Option<u64>
    ensures { result ≡ fraction_of s.now }
{
    let v = digits(s, 12)?;
    if s.ends_with(b"0") {
        None
    } else {
        ths(v, s.len())
    }
}

// A gain: a whole number, and then nothing or a point and what may stand behind one.
#[tactic(auto, using(crate::proofs::CodeLaws::gains))]
fn gain(s: &[u8]) -> Option<u64>
    ensures { result ≡ gain_of s.now }
{
    let p = find(s, b'.');
    if p < s.len() {
        Some(whole(&s[..p])? * 4096 + fraction(&s[p + 1..])?)
    } else {
        Some(whole(s)? * 4096)
    }
}

// A value: a gain, or a whole number where the line has no gain.
#[tactic(auto, unfolding(crate::specs::Value::number_of))]
pub fn value(gain_line: bool, s: &[u8]) -> Option<u64>
    ensures { result ≡ number_of gain_line s.now }
{
    if gain_line { gain(s) } else { whole(s) }
}

// The digits of f/4096 behind the point.
fn put_fraction(page: &mut Page, f: u64)
    requires { (f < 4096) × Room page.old 12 }
    ensures { Put page.old page.new (fraction_digits 12 f) }
{
    let mut rest = f;
    // a `while`: no range or slice says how many digits there are, the division ends once nothing is left
    while 0 < rest {
        page.put_byte(b'0' + (rest * 10 / 4096) as u8);
        rest = rest * 10 % 4096;
    }
}

fn put_gain(page: &mut Page, w: u64)
    requires { Room page.old 33 }
    ensures { Put page.old page.new (gain_text w) }
{
    page.put_count(w / 4096);
    let f = w % 4096;
    if f != 0 {
        page.put_byte(b'.');
        put_fraction(page, f);
    }
}

// A value as its line has it, for which there is room whatever its word is.
#[tactic(auto, using(crate::proofs::Putting::gain_length), unfolding(crate::specs::Value::value_text))]
pub fn put_value(page: &mut Page, is_gain: bool, w: u64)
    requires { Room page.old 33 }
    ensures put { Put page.old page.new (value_text is_gain w) }
    ensures bound { page.new.at ≤ page.old.at + 33 }
{
    if is_gain {
        put_gain(page, w);
    } else {
        page.put_count(w);
    }
}
