// Lines that are fed in chunks of any size: a line's bytes go to it as they come, whole or not.
#![tactic(auto)]

ghost use Rattle.std.specs.Prelude.{◌≡◌, ◌+◌, ◌*◌, ◌≤◌, ◌<◌, ℕ, Bool, List, [], ℤ, length, take, is_some, IfSome, IfNone};
ghost use Rattle.writing.specs.Page.{Put, Room};
ghost use Rattle.feeding.specs.Lines.{one_more};
ghost use Rattle.feeding.specs.Feeding.{part_of, fed_of, Said};
ghost use Rattle.feeding.specs.Feeds.{as_fed, FeedLaws, Feeds, feed_laws};

use text::Line;
use writing::Page;

// Bytes went to a line: the line after them, the bytes behind them, and whether they ended it. A flag and no Option: the line goes on where they did not.
#[derive(Clone, Copy)]
pub struct LineFed<'a> {
    pub line: Line,
    pub rest: &'a [u8],
    pub ended: bool,
}

// The bytes of a chunk, up to the line feed that ends the line, or all there are.
#[tactic(auto, using(crate::proofs::Parts::part_end, crate::proofs::Parts::part_on, crate::proofs::Parts::part_past))]
pub fn line_fed<'a>(l: Line, chunk: &'a [u8], numbers: &mut [i32]) -> LineFed<'a>
    ensures chunk_value { part_of (record { line = l; numbers = numbers.old }) chunk.now
        ≡ record { reading = record { line = result.line; numbers = numbers.new }; ended = result.ended; behind = result.rest.now } }
    ensures shorter { (length result.rest.now ≤ length chunk.now) × (0 < length chunk.now → length result.rest.now < length chunk.now) }
{
    let mut line = l;
    for (i, &b) in chunk.iter().enumerate() {
        if b == b'\n' {
            return LineFed {
                line: text::line_end(line, numbers),
                rest: &chunk[i + 1..],
                ended: true,
            };
        }
        line = text::line_next(line, b, numbers);
    }
    LineFed {
        line,
        rest: &[],
        ended: false,
    }
}

// One more, of a count of lines. Held at the end, which no input reaches, so that it does not wrap.
pub fn next(count: u64) -> u64
    ensures { result ≡ one_more count }
{
    count.saturating_add(1)
}

// What is fed an input chunk by chunk, and puts what it answers on a page.
pub trait Feed: Copy {
    // The most bytes that it answers a byte.
    ghost room: { ℕ };

    ghost can_feed: { Self → Type 0 };

    // Fed with bytes it becomes another, and answers a text.
    ghost feeds: { Self → List ℕ → Self → List ℕ → Type 0 };

    ghost over: { Self → Bool };

    // What each `impl` must prove.
    ghost laws: { FeedLaws feeds };

    fn fed(self, page: &mut Page, chunk: &[u8]) -> Self
        requires { can_feed self × Room page.old (room * length chunk.now) }
        ensures can { can_feed result }
        ensures put { (text : List ℕ) × feeds self chunk.now result text × Put page.old page.new text };

    // Whether nothing that may still come is looked at.
    fn is_over(&self) -> bool
        ensures { result ≡ over self.now };
}

// What goes from one line of numbers to the next; a line has N numbers at most.
pub trait Told<const N: usize>: Copy {
    // The most bytes that it answers a line.
    ghost most: { ℕ };

    ghost can_tell: { Self → Type 0 };

    // Which numbers make a line good, what comes after such a line, and which texts may answer it.
    ghost fits: { List ℤ → Bool };

    ghost after: { Self → List ℤ → Self };

    ghost answers: { Self → List ℤ → List ℕ → Type 0 };

    // Told a line, whose numbers are the first `count` of those that stand there: what it becomes, where the line is good.
    fn told(self, page: &mut Page, numbers: &[i32; N], count: usize) -> Option<Self>
        requires { can_tell self × (count ≤ length numbers.now) × Room page.old most }
        ensures good { is_some result ≡ fits (take count numbers.now) }
        ensures next { IfSome result (λ t. (t ≡ after self (take count numbers.now)) × can_tell t) }
        ensures put { (text : List ℕ) × IfSome result (λ t. answers self (take count numbers.now) text)
            × IfNone result (text ≡ []) × Put page.old page.new text }
        ensures bound { page.new.at ≤ page.old.at + most };
}

// Where a program stands between two bytes: what is kept of the lines so far; the line at hand, its numbers, and whether a byte of it came; whether a
// line came that is not good, after which nothing is looked at. Two flags, as specs/Feeding `Fed` has them, over which the theorems are said.
#[derive(Clone, Copy)]
pub struct Feeder<T, const N: usize> {
    pub kept: T,
    pub line: Line,
    pub numbers: [i32; N],
    pub begun: bool,
    pub stopped: bool,
}

// The bytes of a chunk, whether lines stand whole in it or not. A line has a byte at least, so `most` places for each byte are room for any answers.
pub fn lines_fed<T: Told<N>, const N: usize>(
    page: &mut Page,
    s: Feeder<T, N>,
    chunk: &[u8],
) -> Feeder<T, N>
    requires { T.can_tell s.kept × Room page.old (T.most * length chunk.now) }
    ensures can { T.can_tell result.kept }
    ensures value { as_fed result ≡ fed_of T.fits T.after (as_fed s) chunk.now }
    ensures put { (text : List ℕ) × Said T.fits T.after T.answers (as_fed s) chunk.now text × Put page.old page.new text }
    ensures bound { page.new.at ≤ page.old.at + T.most * length chunk.now }
{
    let mut now = s;
    let mut rest = chunk;
    while !rest.is_empty() && !now.stopped {
        let f = line_fed(now.line, rest, &mut now.numbers);
        rest = f.rest;
        now.line = f.line;
        now.begun = true;
        now.stopped = f.ended;
        // tried as one let-chain: the borrow checker has no place for the end of its loans
        if f.ended && !f.line.bad {
            if let Some(kept) = now.kept.told(page, &now.numbers, f.line.count) {
                now.kept = kept;
                now.line = text::line_start();
                now.begun = false;
                now.stopped = false;
            }
        }
    }
    now
}

impl<T: Told<N>, const N: usize> Feed for Feeder<T, N> {
    ghost room = { T.most };

    ghost can_feed = { λ s. T.can_tell s.kept };

    ghost feeds = { Feeds T.fits T.after T.answers };

    ghost over = { λ s. s.stopped };

    ghost laws = { feed_laws T.fits T.after T.answers };

    fn fed(self, page: &mut Page, chunk: &[u8]) -> Feeder<T, N> {
        lines_fed(page, self, chunk)
    }

    fn is_over(&self) -> bool {
        self.stopped
    }
}
