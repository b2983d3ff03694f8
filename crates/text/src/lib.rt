// Lines of decimal numbers, read byte by byte, so that a line may be of any length.
#![tactic(auto)]

ghost use Rattle.std.specs.Prelude.{◌≡◌, if◌then◌else◌, Some, None, length};
ghost use Rattle.text.specs.Automaton.{word_next, word_signed, word_ok, word_value, line_start, line_next, line_end, numbers_next, numbers_end};

// A number that is being read: whether a minus sign, whether a digit came, whether it is no number, and its value without the sign. No
// enum: specs/Automaton `digit_next`, `other_next`, `word_ok` and `word_value` are said over these flags.
#[derive(Clone, Copy, Default)]
pub struct Word {
    pub minus: bool,
    pub digits: bool,
    pub bad: bool,
    pub value: u64,
}

// A line that is being read: the word at hand, how many numbers came before it, whether the line is refused; flags and no Option, as above.
#[derive(Clone, Copy, Default)]
pub struct Line {
    pub word: Word,
    pub count: usize,
    pub bad: bool,
}

// One byte more. The value is held where ten times it is too large in any case, so that any number of digits may come and it does not
// wrap. A byte that is no digit is good only as a minus sign, and that only as the first byte.
#[tactic(auto, unfolding(crate::specs::Automaton::word_next, crate::specs::Automaton::digit_next, crate::specs::Automaton::other_next))]
fn word_next(w: Word, b: u8) -> Word
    ensures { result ≡ word_next w b }
{
    if b.is_ascii_digit() {
        Word {
            digits: true,
            value: w.value.min(214748365) * 10 + u64::from(b - b'0'),
            ..w
        }
    } else {
        Word {
            minus: true,
            bad: w.bad || w.minus || w.digits || b != b'-',
            ..w
        }
    }
}

// A value of 4294967296 or more stands for any such, which fits with neither sign.
#[tactic(auto, unfolding(crate::specs::Automaton::word_signed))]
fn word_signed(w: Word) -> i64
    ensures { result ≡ word_signed w }
{
    let v = w.value.min(4294967296) as i64;
    if w.minus { -v } else { v }
}

// The word's number, if it is one of 32 bits.
#[tactic(auto, unfolding(crate::specs::Automaton::word_ok, crate::specs::Automaton::word_value))]
fn word_number(w: Word) -> Option<i32>
    ensures { result ≡ (if word_ok w then Some (word_value w) else None) }
{
    if w.digits && !w.bad {
        i32::try_from(word_signed(w)).ok()
    } else {
        None
    }
}

#[tactic(auto, unfolding(crate::specs::Automaton::line_start, crate::specs::Automaton::word_start))]
pub fn line_start() -> Line
    ensures { result ≡ line_start }
{
    Line::default()
}

// The word at hand has ended. At the line feed this ends the line: then `bad` says whether it is refused, `count` how many numbers it had.
pub fn line_end(l: Line, numbers: &mut [i32]) -> Line
    ensures { (result ≡ line_end l (length numbers.old)) × (numbers.new ≡ numbers_end l numbers.old) }
{
    match word_number(l.word) {
        Some(v) if l.count < numbers.len() => {
            numbers[l.count] = v;
            Line {
                word: Word::default(),
                count: l.count + 1,
                ..l
            }
        }
        _ => Line {
            word: Word::default(),
            bad: true,
            ..l
        },
    }
}

// One byte of a line, which is no line feed.
#[tactic(auto, unfolding(crate::specs::Automaton::line_next, crate::specs::Automaton::numbers_next))]
pub fn line_next(l: Line, b: u8, numbers: &mut [i32]) -> Line
    ensures { (result ≡ line_next l b (length numbers.old)) × (numbers.new ≡ numbers_next l b numbers.old) }
{
    if b == b' ' {
        return line_end(l, numbers);
    }
    Line {
        word: word_next(l.word, b),
        ..l
    }
}
