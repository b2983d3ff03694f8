// Numbers as text, put on a page: lent bytes and the place in them.
#![tactic(auto)]

ghost use Rattle.std.specs.Prelude.{◌≡◌, ◌+◌, ◌*◌, ◌≤◌, ◌∷◌, [], length};
ghost use Rattle.writing.specs.Page.{Put, Room};
ghost use Rattle.writing.specs.Decimal.{count_text, text_of, line_text, bad_text};

// A place in lent bytes: what is put on it is written there, and the place moves behind it.
#[derive(Drop)]
pub struct Page<'a> {
    out: &'a mut [u8],
    at: usize,
}

impl<'a> Page<'a> {
    pub fn new(out: &'a mut [u8], at: usize) -> Page<'a>
        ensures same { result.out.ghost_name ≡ out.entry.ghost_name }
        ensures bytes { result.out.now ≡ out.old }
        ensures place { result.at ≡ at }
    {
        Page { out, at }
    }

    // The place behind what was put.
    pub fn place(&self) -> usize
        ensures { result ≡ self.now.at }
    {
        self.at
    }

    pub fn put_byte(&mut self, b: u8)
        requires { Room self.old 1 }
        ensures { Put self.old self.new (b ∷ []) }
    {
        self.out[self.at] = b;
        self.at += 1;
    }

    #[tactic(auto, using(crate::proofs::PageLaws::puts, crate::proofs::PageLaws::copied, crate::proofs::PageLaws::copied_parts))]
    pub fn put_text(&mut self, bytes: &[u8])
        requires { Room self.old (length bytes.now) }
        ensures { Put self.old self.new bytes.now }
    {
        let end = self.at + bytes.len();
        self.out[self.at..end].copy_from_slice(bytes);
        self.at = end;
    }

    #[tactic(auto, using(crate::proofs::PageLaws::puts, crate::proofs::PageLaws::copied))]
    fn put_digits(&mut self, n: u64)
        requires { Room self.old (length (count_text n)) }
        ensures { Put self.old self.new (count_text n) }
    {
        let k = places(n);
        spell(n, &mut self.out[self.at..self.at + k]);
        self.at += k;
    }

    // A count, for which there is room whatever it is.
    #[tactic(auto, using(crate::proofs::DecimalLaws::count_length))]
    pub fn put_count(&mut self, count: u64)
        requires { Room self.old 20 }
        ensures put { Put self.old self.new (count_text count) }
        ensures bound { self.new.at ≤ self.old.at + 20 }
    {
        self.put_digits(count);
    }

    // A number, for which there is room whatever it is.
    pub fn put_number(&mut self, v: i32)
        requires { Room self.old 11 }
        ensures put { Put self.old self.new (text_of v) }
        ensures bound { self.new.at ≤ self.old.at + 11 }
    {
        if v < 0 {
            self.put_byte(b'-');
        }
        self.put_digits(u64::from(v.unsigned_abs()));
    }

    // Numbers as a line. Twelve places for each are room whatever they are.
    pub fn put_line(&mut self, numbers: &[i32])
        requires { (1 ≤ length numbers.now) × Room self.old (12 * length numbers.now) }
        ensures put { Put self.old self.new (line_text numbers.now) }
        ensures bound { self.new.at ≤ self.old.at + 12 * length numbers.now }
    {
        self.put_number(numbers[0]);
        for &v in &numbers[1..] {
            self.put_byte(b' ');
            self.put_number(v);
        }
        self.put_byte(b'\n');
    }

    // What a refused line is answered, for which there is room whatever its number is.
    pub fn put_bad(&mut self, number: u64)
        requires { Room self.old 25 }
        ensures put { Put self.old self.new (bad_text number) }
        ensures bound { self.new.at ≤ self.old.at + 25 }
    {
        self.put_text(b"bad ");
        self.put_count(number);
        self.put_text(b"\n");
    }
}

// How many digits n has: one more than the power of ten that it reaches, and 0 has as many as 1.
#[tactic(auto, using(crate::proofs::DecimalLaws::digits_of_power))]
fn places(n: u64) -> usize
    ensures { result ≡ length (count_text n) }
{
    n.max(1).ilog10() as usize + 1
}

// The digits of n where there are as many places: from the last one up, so they need no copy. By place, since a proof knows nothing of
// what `iter_mut().rev()` leaves.
#[tactic(auto, using(crate::proofs::Written::spelt_start, crate::proofs::Written::spelt_more), unfolding(crate::specs::Decimal::last_digits))]
fn spell(n: u64, out: &mut [u8])
    requires { length out.old ≡ length (count_text n) }
    ensures { out.new ≡ count_text n }
{
    let mut rest = n;
    for i in (0..out.len()).rev() {
        out[i] = b'0' + (rest % 10) as u8;
        rest /= 10;
    }
}
