// The program sheet: standard input is a sheet, or should be one; standard output is what is to be said of it, and the sheet itself where it is good.
#![tactic(auto)]

ghost use Rattle.std.specs.Prelude.{◌≡◌, ◌≤◌, List, ℕ, length, IfOk, OnOk, OnErr, IfSome};
ghost use Rattle.std.specs.Io.KnownBytes.{Appends, Consumes};
ghost use Rattle.findings.specs.Findings.{answer_text};
ghost use Rattle.read_sheet.specs.Gathering.{Gathering};

use pipes::Trouble;
use std::io::{Read, Write};
use writing::Page;

// So much is read at a time, and so much is enough: no sheet is so long, and the first faulty line and what is shown of it stand in front of that.
const CHUNK: usize = 1024;

const ENOUGH: usize = 3072;

// Room for what is enough and one read more, and for the longest answer.
const ROOM: usize = ENOUGH + CHUNK;

const ANSWER: usize = 602;

// Read by read, until the input is over or there is enough: so many bytes of the text were read.
fn read_through<R: Read>(from: &mut R, text: &mut [u8]) -> Result<usize, Trouble>
    requires { length text.old ≡ 4096 }
    ensures gathered { IfOk result (λ size. Gathering (R.remaining from.old) (R.remaining from.new) text.new size) }
    ensures broken_off { OnErr result ((eaten : List ℕ) × Consumes (R.remaining from.old) (R.remaining from.new) eaten) }
{
    let mut size = 0;
    // a `while`: how much a read brings is not known, so that no range says how many there are
    while size <= ENOUGH {
        let more = pipes::receive(from, &mut text[size..size + CHUNK])?;
        if more == 0 {
            return Ok(size);
        }
        size += more;
    }
    Ok(size)
}

// What is to be said of what was read is sent; where a read failed nothing is. So if no read failed, and all was sent, it is what `answer_text` says of the
// input as a whole.
fn answer_through<R: Read, W: Write>(
    from: &mut R,
    to: &mut W,
    text: &mut [u8],
    out: &mut [u8],
) -> Result<(), Trouble>
    requires { (length text.old ≡ 4096) × (602 ≤ length out.old) }
    ensures { OnOk result (IfSome (R.remaining from.old) (λ input. Appends (W.contents to.old) (W.contents to.new) (answer_text input))) }
{
    let size = read_through(from, text)?;
    let mut page = Page::new(out, 0);
    findings::put_answer(&mut page, &text[..size]);
    let place = page.place();
    pipes::send(to, &out[..place])
}

// Where a read or a write failed words on standard error say so, and where a read failed nothing is said of the text.
// (probe's `main` is like it; one for both would take rooms, name and work as parameters, and be no shorter.)
fn main(rt: HostRuntime) {
    let mut text = [0u8; ROOM];
    let mut out = [0u8; ANSWER];
    if let Err(why) = answer_through(&mut rt.stdin(), &mut rt.stdout(), &mut text, &mut out) {
        pipes::tell_trouble(&mut rt.stderr(), b"sheet", why);
    }
}
