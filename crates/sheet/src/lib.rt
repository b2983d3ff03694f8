// The sheet of a motor's settings: text that is read, and text that is written; and both as C has them, with a buffer.
#![tactic(auto)]

ghost use Rattle.std.specs.Prelude.{◌≡◌, ◌+◌, ◌*◌, ◌^◌, ◌≤◌, ◌<◌, Some, None, MatchOption, length};
ghost use Rattle.values.specs.Value.{behind};
ghost use Rattle.writing.specs.Page.{Put, Room};
ghost use Rattle.settings.specs.Words.{size as line_count, entry_at, entries};
ghost use Rattle.sheet.specs.Sheet.{
  line_of,
  first_of,
  lines_of,
  read_sheet,
  line_text,
  lines_text,
  wrote,
  sheet_in,
};
ghost use Rattle.sheet.specs.Calls.{no_settings, reading_of, writing_of};

use fixed::refusal::Refusal;
use settings::Settings;
use writing::Page;

// Why a text is not read as settings: they are refused, with number 1 to 5, or a line is faulty, counted from 1, with number 17.
#[derive(Clone, Copy, Debug, PartialEq, Eq)]
pub enum Unread {
    Refused(Refusal),
    Faulty(usize),
}

// Why no sheet is written: the settings are refused, with number 1 to 5, or the room is too short, with number 18.
#[derive(Clone, Copy, Debug, PartialEq, Eq)]
pub enum Unwritten {
    Barred(Refusal),
    Short,
}

const LINES: usize = settings::WORDS;

// Room for a sheet, whatever its words are: 40 bytes a line.
const ROOM: usize = 40 * LINES;

// A line without its line feed: name=value.
#[tactic(auto, using(crate::proofs::CodeLaws::line_good, crate::proofs::CodeLaws::line_other))]
fn line(i: usize, s: &[u8]) -> Option<u64>
    requires { i < line_count }
    ensures { result ≡ line_of (entry_at i) s.now }
{
    let f = names::field_at(i);
    values::value(f.gain, s.strip_prefix(f.key)?)
}

// The first line of a text: its word, which fits 31 bits, and what stands behind it.
#[tactic(auto, using(crate::proofs::CodeLaws::firsts))]
fn first(i: usize, text: &[u8]) -> Option<(u64, &[u8])>
    requires { i < line_count }
    ensures { MatchOption result (first_of (entry_at i) text.now ≡ None)
        (λ r. (first_of (entry_at i) text.now ≡ Some r.0) × (r.0 < 2 ^ 31) × (r.1.now ≡ behind 10 text.now)) }
{
    let n = values::find(text, b'\n');
    if n == text.len() {
        return None;
    }
    let w = line(i, &text[..n])?;
    Some((w, &text[n + 1..]))
}

// The lines of a text, one by one, up to the first that is faulty; behind the last nothing may stand.
#[tactic(auto, using(crate::proofs::Walking::walks))]
pub fn lines(text: &[u8]) -> Result<Settings, usize>
    ensures { result ≡ lines_of text.now }
{
    let mut words = [0; LINES];
    let mut rest = text;
    for (i, word) in words.iter_mut().enumerate() {
        let (w, behind) = first(i, rest).ok_or(i + 1)?;
        *word = w as i32;
        rest = behind;
    }
    if !rest.is_empty() {
        return Err(LINES + 1);
    }
    Ok(settings::of_words(&words))
}

// Reading comes first, and the settings are judged as they stand: a word out of range has no line.
pub fn read(text: &[u8]) -> Result<Settings, Unread>
    ensures { result ≡ read_sheet text.now }
{
    let s = lines(text).map_err(Unread::Faulty)?;
    settings::check(s).map_err(Unread::Refused)
}

// Line i with its line feed, for which there is room whatever its word is.
fn put_line(page: &mut Page, i: usize, w: u64)
    requires { (i < line_count) × Room page.old 40 }
    ensures put { Put page.old page.new (line_text (entry_at i) w) }
    ensures bound { page.new.at ≤ page.old.at + 40 }
{
    let f = names::field_at(i);
    page.put_text(f.key);
    values::put_value(page, f.gain, w);
    page.put_byte(b'\n');
}

// The sheet with these words.
pub fn put_lines(page: &mut Page, words: [i32; LINES])
    requires { Room page.old (40 * line_count) }
    ensures put { Put page.old page.new (lines_text entries words) }
    ensures bound { page.new.at ≤ page.old.at + 40 * line_count }
{
    for (i, w) in words.iter().enumerate() {
        put_line(page, i, u64::from(w.unsigned_abs()));
    }
}

// Settings that are refused come before any question of room. The sheet is made in a place of its own and copied once its length is known: so no
// length is foreseen, and where it does not fit nothing is touched.
pub fn write(s: Settings, out: &mut [u8]) -> Result<usize, Unwritten>
    ensures { (result ≡ wrote s (length out.old)) × (out.new ≡ sheet_in s out.old) }
{
    let s = settings::check(s).map_err(Unwritten::Barred)?;
    let mut sheet = [0; ROOM];
    let mut page = Page::new(&mut sheet, 0);
    put_lines(&mut page, settings::words_of(s));
    let place = page.place();
    if out.len() < place {
        return Err(Unwritten::Short);
    }
    out[..place].copy_from_slice(&sheet[..place]);
    Ok(place)
}

// For C (include/mirgalhet.h): the number, the line that comes with 17, and the settings that come with 0.
#[repr(C)]
#[derive(Clone, Copy)]
pub struct Reading {
    pub number: i32,
    pub line: i32,
    pub settings: Settings,
}

// For C too: the number, and the length that comes with 0.
#[repr(C)]
#[derive(Clone, Copy)]
pub struct Writing {
    pub number: i32,
    pub length: i32,
}

// Settings of zeros, which every drive refuses.
#[tactic(auto, unfolding(crate::specs::Calls::no_settings, settings::specs::Words::settings_of))]
fn no_settings() -> Settings
    ensures { result ≡ no_settings }
{
    let words = [0; LINES];
    settings::of_words(&words)
}

// A sheet is read from bytes that C lends.
#[tactic(auto, using(crate::proofs::Sizes::lines_held), unfolding(crate::specs::Calls::reading_of))]
pub fn mirgalhet_read_sheet(text: &[u8]) -> Reading
    ensures { result ≡ reading_of (read_sheet text.now) }
{
    match read(text) {
        Ok(settings) => Reading {
            number: 0,
            line: 0,
            settings,
        },
        Err(Unread::Refused(why)) => Reading {
            number: why.number(),
            line: 0,
            settings: no_settings(),
        },
        Err(Unread::Faulty(i)) => Reading {
            number: Refusal::NoSheet.number(),
            line: i as i32,
            settings: no_settings(),
        },
    }
}

// A sheet is written into a buffer that C lends.
#[tactic(auto, using(crate::proofs::Sizes::lengths_held), unfolding(crate::specs::Calls::writing_of))]
pub fn mirgalhet_write_sheet(s: Settings, out: &mut [u8]) -> Writing
    ensures { (result ≡ writing_of (wrote s (length out.old))) × (out.new ≡ sheet_in s out.old) }
{
    match write(s, out) {
        Ok(n) => Writing {
            number: 0,
            length: n as i32,
        },
        Err(Unwritten::Barred(why)) => Writing {
            number: why.number(),
            length: 0,
        },
        Err(Unwritten::Short) => Writing {
            number: Refusal::NoRoom.number(),
            length: 0,
        },
    }
}
