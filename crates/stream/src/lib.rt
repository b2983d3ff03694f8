// The program without its reads and writes: bytes go in as they come, in chunks of any size, and what they are answered comes out.
#![tactic(auto)]

ghost use Rattle.std.specs.Prelude.{◌≡◌, true, cond, ◌+◌, ◌*◌, ◌≤◌, length};
ghost use Rattle.writing.specs.Page.{Put, Room};
ghost use Rattle.drive_record.specs.Record.{sound as sound_of};
ghost use Rattle.feeding.specs.Lines.{one_more};
ghost use Rattle.feeding.specs.Feeds.{as_fed};
ghost use Rattle.stream.specs.Program.{is_row, header_text, tally_of, answer_text, totals_text};
ghost use Rattle.stream.specs.Streaming.{stream_start, rows_fed, rows_text, last_text};
ghost use Rattle.stream.specs.Feeds.{RowsFed, rows_laws};

use drive_record::Drive;
use feeding::{Feed, Feeder, Told};
use writing::Page;

// What goes from one row to the next: the drive, how many rows came, the accepted steps and the clipped ones among them.
#[derive(Clone, Copy)]
pub struct Tally {
    pub drive: Drive,
    pub rows: u64,
    pub accepted: u64,
    pub clipped: u64,
}

// Where the program stands between two bytes.
pub type Stream = Feeder<Tally, 3>;

// One more, where it counts.
fn next_if(counts: bool, number: u64) -> u64
    ensures { result ≡ cond counts (one_more number) number }
{
    if counts {
        feeding::next(number)
    } else {
        number
    }
}

// A row is one step, and its answer is a line: four numbers of at most eleven bytes, with a byte behind each. That the record is sound is a clause, as it
// is of `drive::step_sound`.
fn row_told(page: &mut Page, t: Tally, row: [i32; 3]) -> Tally
    requires { (sound_of t.drive ≡ true) × Room page.old 48 }
    ensures tally { result ≡ tally_of t row }
    ensures put { Put page.old page.new (answer_text t row) }
    ensures bound { page.new.at ≤ page.old.at + 48 }
{
    let s = drive::step_sound(t.drive, row[0], row[1], row[2]);
    page.put_line(&[s.pulses.a, s.pulses.b, s.pulses.c, s.number]);
    // `&` below, since with `&&` the proof of the counts did not close: it loses which way the step went
    let accepted = s.number == 0;
    Tally {
        drive: s.drive,
        rows: feeding::next(t.rows),
        accepted: next_if(accepted, t.accepted),
        clipped: next_if(accepted & s.pulses.clipped, t.clipped),
    }
}

// A line is a row where it has exactly three numbers.
impl Told<3> for Tally {
    ghost most = { 48 };

    ghost can_tell = { λ t. sound_of t.drive ≡ true };

    ghost fits = { is_row };

    ghost after = { tally_of };

    ghost answers = { λ t row text. text ≡ answer_text t row };

    fn told(self, page: &mut Page, numbers: &[i32; 3], count: usize) -> Option<Tally> {
        if count == 3 {
            Some(row_told(page, self, *numbers))
        } else {
            None
        }
    }
}

// What is written first.
#[tactic(auto, unfolding(crate::specs::Program::header_text))]
pub fn put_header(page: &mut Page)
    requires { Room page.old 9 }
    ensures put { Put page.old page.new header_text }
    ensures bound { page.new.at ≤ page.old.at + 9 }
{
    page.put_text(b"a b c no\n");
}

// Nothing is read yet.
pub fn start(d: Drive) -> Stream
    ensures { as_fed result ≡ stream_start d }
{
    Feeder {
        kept: Tally {
            drive: d,
            rows: 0,
            accepted: 0,
            clipped: 0,
        },
        line: text::line_start(),
        numbers: [0, 0, 0],
        begun: false,
        stopped: false,
    }
}

// The bytes of a chunk, whether lines stand whole in it or not. A row has a byte at least, so 48 places for each byte are room for any answers.
pub fn fed(page: &mut Page, s: Stream, chunk: &[u8]) -> Stream
    requires { (sound_of s.kept.drive ≡ true) × Room page.old (48 * length chunk.now) }
    ensures stream_value { (as_fed result ≡ rows_fed (as_fed s) chunk.now) × (sound_of result.kept.drive ≡ true) }
    ensures put { Put page.old page.new (rows_text (as_fed s) chunk.now) }
    ensures bound { page.new.at ≤ page.old.at + 48 * length chunk.now }
{
    feeding::lines_fed(page, s, chunk)
}

// The stream as a program feeds it: each chunk goes through `fed`, so what that promises holds of the program. A type of its own, since as a `Feeder` it
// would be fed by the loop of `feeding`, past `fed`.
#[derive(Clone, Copy)]
pub struct Rows {
    pub stream: Stream,
}

impl Feed for Rows {
    ghost room = { 48 };

    ghost can_feed = { λ r. sound_of r.stream.kept.drive ≡ true };

    ghost feeds = { RowsFed };

    ghost over = { λ r. r.stream.stopped };

    ghost laws = { rows_laws };

    fn fed(self, page: &mut Page, chunk: &[u8]) -> Rows {
        Rows {
            stream: fed(page, self.stream, chunk),
        }
    }

    fn is_over(&self) -> bool {
        self.stream.stopped
    }
}

fn put_totals(page: &mut Page, accepted: u64, clipped: u64)
    requires { Room page.old 56 }
    ensures put { Put page.old page.new (totals_text accepted clipped) }
    ensures bound { page.new.at ≤ page.old.at + 56 }
{
    page.put_text(b"steps ");
    page.put_count(accepted);
    page.put_text(b" clipped ");
    page.put_count(clipped);
    page.put_byte(b'\n');
}

// What is written last: that a line is bad, where one is no row or has no line feed, and the totals so far.
pub fn ended(page: &mut Page, s: Stream)
    requires { Room page.old 81 }
    ensures put { Put page.old page.new (last_text (as_fed s)) }
    ensures bound { page.new.at ≤ page.old.at + 81 }
{
    if s.begun {
        page.put_bad(feeding::next(s.kept.rows));
    }
    put_totals(page, s.kept.accepted, s.kept.clipped);
}
