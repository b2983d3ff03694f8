// Rows as text, through a run with the bench set: each line of standard input is one row of samples, each line of standard output its three
// compares and its number. What is read goes to the stream as it comes, and what the stream writes of it is sent at once.
#![tactic(auto)]

ghost use Rattle.std.specs.Prelude.{◌≡◌, true, ◌*◌, ◌<◌, ◌≤◌, length, IfOk, IfSome};
ghost use Rattle.std.specs.Io.KnownBytes.{Appends};
ghost use Rattle.stream.specs.Program.{program_text};
ghost use Rattle.drive_record.specs.Record.{sound as sound_of};

use drive_record::Drive;
use pipes::Trouble;
use std::io::{Read, Write};
use stream::{Rows, Stream};
use writing::Page;

// The run: the header, the answers as the rows come, and the totals; where a read or a write failed no totals. So if all of an input was read, of fewer than
// 2^64 − 1 bytes, and all that was written was sent, that is what `program_text` says of the input as a whole. The drive is sound by a clause, as the
// stream asks.
fn run_through<R: Read, W: Write>(
    from: &mut R,
    to: &mut W,
    d: Drive,
    bytes: &mut [u8],
    out: &mut [u8],
) -> Result<Stream, Trouble>
    requires { (sound_of d ≡ true) × (0 < length bytes.old) × (48 * length bytes.old ≤ length out.old) × (81 ≤ length out.old) }
    ensures { IfOk result (λ last. IfSome (R.remaining from.old) (λ input. length input < 18446744073709551615
        → Appends (W.contents to.old) (W.contents to.new) (program_text d input))) }
{
    let mut header = Page::new(out, 0);
    stream::put_header(&mut header);
    let place = header.place();
    pipes::send(to, &out[..place])?;
    let first = Rows {
        stream: stream::start(d),
    };
    let s = pipes::feed_through(from, to, first, bytes, out)?.stream;
    let mut closing = Page::new(out, 0);
    stream::ended(&mut closing, s);
    let end = closing.place();
    pipes::send(to, &out[..end])?;
    Ok(s)
}

// What is said of a line that is no row, on standard error: 15 bytes, any count, 14 bytes. Standard output has its number too, but the
// program hands back no status, and whoever started it has only these words to go by.
fn tell_bad<W: Write>(to: &mut W, s: Stream, out: &mut [u8])
    requires { 49 ≤ length out.old }
{
    let mut page = Page::new(out, 0);
    page.put_text(b"run_rows: line ");
    page.put_count(feeding::next(s.kept.rows));
    page.put_text(b" is not a row\n");
    let place = page.place();
    pipes::tell(to, &out[..place]);
}

// Where a read or a write failed words on standard error say so, and no totals are written: nobody takes what stands for the whole. Where they too
// cannot be written there is nobody left to tell.
fn main(rt: HostRuntime) {
    let Ok(s) = settings::check(settings::bench_settings()) else {
        return;
    };
    let d = drive::fresh(s);
    let mut bytes = [0u8; 4096];
    // 48 places for each of them, as the stream asks
    let mut out = [0u8; 196608];
    match run_through(&mut rt.stdin(), &mut rt.stdout(), d, &mut bytes, &mut out) {
        Ok(s) if s.begun => tell_bad(&mut rt.stderr(), s, &mut out),
        Ok(_) => {}
        Err(why) => pipes::tell_trouble(&mut rt.stderr(), b"run_rows", why),
    }
}
