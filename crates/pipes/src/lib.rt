// Standard input and output, for programs that read, feed and write: what a read brought, and whether a write went through. What they read from and write to
// is handed to them, so that a contract can name its bytes: where a reader or a writer says which it has, they are those that were read or sent. Standard
// input, output and error say nothing of theirs. One loop reads, feeds and sends for whatever may be fed.
#![tactic(auto)]

ghost use Rattle.std.specs.Prelude.{◌≡◌, ◌<◌, ◌≤◌, ◌*◌, Ok, length, take, IfOk, OnOk, IfErr};
ghost use Rattle.std.specs.Io.KnownBytes.{Appends, Consumes, Keeps, IsAtEnd};
ghost use Rattle.pipes.specs.Counts.{AppendsFront, AppendsFronts, AppendsLess, IsPrefixLen};
ghost use Rattle.pipes.specs.Through.{Through, BrokenOff};
ghost use Rattle.pipes.specs.Words.{words_of};

use feeding::Feed;
use std::io::{Read, Write};
use writing::Page;

// What failed: a read or a write.
#[derive(Clone, Copy, Debug, PartialEq, Eq)]
pub enum Trouble {
    Unread,
    Unsent,
}

impl Trouble {
    // What is said of it behind a program's name.
    pub fn words(self) -> &'static [u8]
        ensures { result.now ≡ words_of self }
    {
        match self {
            Trouble::Unread => b": standard input cannot be read\n",
            Trouble::Unsent => b": standard output cannot be written\n",
        }
    }
}

// One read: how many bytes it brought, none of them at the end of the input. A read that a signal interrupts before it brings a byte counts as one that failed.
pub fn receive<R: Read>(from: &mut R, bytes: &mut [u8]) -> Result<usize, Trouble>
    ensures size { IfOk result (λ n. IsPrefixLen n bytes.new) }
    ensures read { IfOk result (λ n. Consumes (R.remaining from.old) (R.remaining from.new) (take n bytes.new)) }
    ensures end { result ≡ Ok 0 → 0 < length bytes.new → IsAtEnd (R.remaining from.new) }
    ensures none { IfErr result (λ why. (why ≡ Trouble.Unread) × Keeps (R.remaining from.old) (R.remaining from.new)) }
{
    match from.read(bytes) {
        Ok(size) => Ok(size),
        Err(_) => Err(Trouble::Unread),
    }
}

// All of the bytes, in as many writes as it takes; it stops at the first write that takes nothing or fails, and then fewer were taken.
// A loop of its own, since std's `write_all` says nothing of what was taken before it failed (`less`).
pub fn send<W: Write>(to: &mut W, bytes: &[u8]) -> Result<(), Trouble>
    ensures all { OnOk result (Appends (W.contents to.old) (W.contents to.new) bytes.now) }
    ensures less { IfErr result (λ why. (why ≡ Trouble.Unsent)
        × AppendsLess (W.contents to.old) (W.contents to.new) bytes.now (length bytes.now)) }
    ensures part { AppendsFront (W.contents to.old) (W.contents to.new) bytes.now (length bytes.now) }
{
    let mut rest = bytes;
    while !rest.is_empty() {
        let Ok(taken) = to.write(rest) else {
            return Err(Trouble::Unsent);
        };
        if taken == 0 {
            return Err(Trouble::Unsent);
        }
        rest = &rest[taken..];
    }
    Ok(())
}

// Chunk by chunk what is read is fed, and what it is answered is sent, until the input is over or nothing more is looked at.
// A proved loop has to end, and nothing says that the input does: so the reads are counted, up to a number that no run uses up.
pub fn feed_through<R: Read, W: Write, F: Feed>(
    from: &mut R,
    to: &mut W,
    first: F,
    bytes: &mut [u8],
    out: &mut [u8],
) -> Result<F, Trouble>
    requires { F.can_feed first × (0 < length bytes.old) × (F.room * length bytes.old ≤ length out.old) }
    ensures through { IfOk result (λ last. Through F.feeds F.over (length bytes.old) first last
        (R.remaining from.old) (R.remaining from.new) (W.contents to.old) (W.contents to.new)) }
    ensures broken_off { IfErr result (λ why. BrokenOff F.feeds F.over (length bytes.old) why first
        (R.remaining from.old) (R.remaining from.new) (W.contents to.old) (W.contents to.new)) }
{
    let mut s = first;
    for turns in 0..u64::MAX {
        let size = receive(from, bytes)?;
        if size == 0 {
            return Ok(s);
        }
        let mut page = Page::new(out, 0);
        s = s.fed(&mut page, &bytes[..size]);
        let place = page.place();
        send(to, &out[..place])?;
        if s.is_over() {
            return Ok(s);
        }
    }
    Ok(s)
}

// Words for whoever started the program, on standard error. Where they cannot be written there is nobody left to tell.
pub fn tell<W: Write>(to: &mut W, words: &[u8])
    ensures { AppendsFront (W.contents to.old) (W.contents to.new) words.now (length words.now) }
{
    let _ = send(to, words);
}

// What failed, behind the program's name; the words are tried even where the name could not be written.
pub fn tell_trouble<W: Write>(to: &mut W, program: &[u8], why: Trouble)
    ensures { AppendsFronts (W.contents to.old) (W.contents to.new) program.now (words_of why) }
{
    tell(to, program);
    tell(to, why.words());
}
