// What the program sheet says of a text, without its reads and writes.
#![tactic(auto)]

ghost use Rattle.std.specs.Prelude.{◌≡◌, ◌+◌, ◌≤◌, ◌<◌, length, pos, nat_abs, not, slice_index_or, MatchOption};
ghost use Rattle.settings.specs.Words.{size, entry_at, entries};
ghost use Rattle.fixed.specs.Fixed.{is_in};
ghost use Rattle.fixed.specs.Refusal.{number_of};
ghost use Rattle.writing.specs.Page.{Put, Room};
ghost use Rattle.values.specs.Value.{before, value_text};
ghost use Rattle.findings.specs.Findings.{
  kind_text,
  expected_text,
  shown_byte,
  quoted,
  end_text,
  found_text,
  from_line,
  fault_text,
  is_text,
  ends_text,
  range_text,
  product_text,
  first_out,
  untied_at,
  untied_text,
  reason_text,
  refused_text,
  accepted_text,
  judged_text,
  answer_text,
};

use fixed::refusal::Refusal;
use settings::{Settings, WORDS};
use writing::Page;

// As many bytes of a line are shown.
const SHOWN: usize = 40;

// What kind of value a line has.
#[tactic(auto, unfolding(crate::specs::Findings::kind_text, crate::specs::Phrases::gain_kind, crate::specs::Phrases::whole_kind))]
fn put_kind(page: &mut Page, gain: bool)
    requires { Room page.old 110 }
    ensures put { Put page.old page.new (kind_text «gain») }
    ensures bound { page.new.at ≤ page.old.at + 110 }
{
    if gain {
        page.put_text(
            b" and a gain such as 0.25 or 2, a whole number of 4096ths, with a point, no comma, no zero in front or behind",
        );
    } else {
        page.put_text(b" and a whole number of one to five digits, with no zero in front");
    }
}

// What should stand in line i, counted from 0.
#[tactic(auto, using(sheet::proofs::CodeLaws::key_short))]
fn put_expected(page: &mut Page, i: usize)
    requires { Room page.old 116 }
    ensures put { Put page.old page.new (expected_text i) }
    ensures bound { page.new.at ≤ page.old.at + 116 }
{
    if i < WORDS {
        let f = names::field_at(i);
        page.put_text(f.key);
        put_kind(page, f.gain);
    } else {
        page.put_text(b"the end of the sheet");
    }
}

// A byte as it is shown: what a terminal might take for a command is a question mark.
fn shown_byte(b: u8) -> u8
    ensures { result ≡ shown_byte b }
{
    match b {
        b' '..=b'~' => b,
        _ => b'?',
    }
}

// A line in quotes, its first bytes where it has more.
#[tactic(auto, using(crate::proofs::Laws::showing))]
fn put_quoted(page: &mut Page, line: &[u8])
    requires { Room page.old 42 }
    ensures put { Put page.old page.new (quoted line.now) }
    ensures bound { page.new.at ≤ page.old.at + 42 }
{
    page.put_byte(b'"');
    for b in line.iter().take(SHOWN) {
        page.put_byte(shown_byte(*b));
    }
    page.put_byte(b'"');
}

// What is said of the end of a text's first line, which has n bytes: more may stand behind it, so that no slice says where it ends.
#[tactic(auto, using(crate::proofs::Laws::ends), unfolding(crate::specs::Phrases::and_more, crate::specs::Phrases::without_feed))]
fn put_end(page: &mut Page, rest: &[u8], n: usize)
    requires { (n ≡ length (before 10 rest.now)) × Room page.old 20 }
    ensures put { Put page.old page.new (end_text rest.now) }
    ensures bound { page.new.at ≤ page.old.at + 20 }
{
    if SHOWN < n {
        page.put_text(b" and more");
    } else if n == rest.len() {
        page.put_text(b" without a line feed");
    }
}

// What stands in the first line of a text.
fn put_found(page: &mut Page, rest: &[u8])
    requires { Room page.old 62 }
    ensures put { Put page.old page.new (found_text rest.now) }
    ensures bound { page.new.at ≤ page.old.at + 62 }
{
    if rest.is_empty() {
        page.put_text(b"nothing");
    } else {
        let n = values::find(rest, b'\n');
        put_quoted(page, &rest[..n]);
        put_end(page, rest, n);
    }
}

// A text from its line i on, counted from 0.
#[tactic(auto, using(crate::proofs::Laws::leaving))]
fn from_line(i: usize, text: &[u8]) -> &[u8]
    ensures { result.now ≡ from_line i text.now }
{
    let mut rest = text;
    for _ in 0..i {
        let n = values::find(rest, b'\n');
        rest = if n < rest.len() { &rest[n + 1..] } else { &[] };
    }
    rest
}

// Line i, counted from 1, is faulty, and this stands there.
fn put_fault(page: &mut Page, i: usize, rest: &[u8])
    requires { (1 ≤ i) × Room page.old 226 }
    ensures put { Put page.old page.new (fault_text i rest.now) }
    ensures bound { page.new.at ≤ page.old.at + 226 }
{
    page.put_text(b"17 line ");
    page.put_count(i as u64);
    page.put_text(b": expected ");
    put_expected(page, i - 1);
    page.put_text(b"; found ");
    put_found(page, rest);
    page.put_byte(b'\n');
}

// The name of word i.
#[tactic(auto, using(sheet::proofs::CodeLaws::key_short, crate::proofs::Laws::name_short))]
fn put_name(page: &mut Page, i: usize)
    requires { (i < size) × Room page.old 5 }
    ensures put { Put page.old page.new (entry_at i).name }
    ensures bound { page.new.at ≤ page.old.at + 5 }
{
    let key = names::field_at(i).key;
    page.put_text(&key[..key.len() - 1]);
}

// A value of word i, as a sheet has it.
fn put_word(page: &mut Page, i: usize, w: i32)
    requires { (i < size) × Room page.old 33 }
    ensures put { Put page.old page.new (value_text (entry_at i).gain (nat_abs w)) }
    ensures bound { page.new.at ≤ page.old.at + 33 }
{
    values::put_value(page, names::field_at(i).gain, u64::from(w.unsigned_abs()));
}

fn put_is(page: &mut Page, i: usize, w: i32)
    requires { (i < size) × Room page.old 42 }
    ensures put { Put page.old page.new (is_text (entry_at i) (nat_abs w)) }
    ensures bound { page.new.at ≤ page.old.at + 42 }
{
    put_name(page, i);
    page.put_text(b" is ");
    put_word(page, i, w);
}

// The ends of the range of word i.
fn put_ends(page: &mut Page, i: usize)
    requires { (i < size) × Room page.old 70 }
    ensures put { Put page.old page.new (ends_text (entry_at i)) }
    ensures bound { page.new.at ≤ page.old.at + 70 }
{
    let f = names::field_at(i);
    put_word(page, i, f.lo);
    page.put_text(b" to ");
    put_word(page, i, f.hi);
}

// Word i is out of its range.
fn put_range(page: &mut Page, i: usize, w: i32)
    requires { (i < size) × Room page.old 126 }
    ensures put { Put page.old page.new (range_text (entry_at i) w) }
    ensures bound { page.new.at ≤ page.old.at + 126 }
{
    put_is(page, i, w);
    page.put_text(b", and must be ");
    put_ends(page, i);
}

// Whether word i is out of its range.
fn is_out(words: &[i32; WORDS], i: usize) -> bool
    requires { i < size }
    ensures { result ≡ not (is_in (entry_at i).range (slice_index_or words.now i (pos 0))) }
{
    let f = names::field_at(i);
    !fixed::within(f.lo, f.hi, words[i])
}

// The first word that is out of its range.
fn first_out(words: &[i32; WORDS]) -> Option<usize>
    ensures { MatchOption result (size ≤ first_out entries words.now) (λ i. (i ≡ first_out entries words.now) × (i < size)) }
{
    (0..WORDS).find(|i| is_out(words, *i))
}

// Word k and the one behind it, by their names.
fn put_product(page: &mut Page, k: usize)
    requires { (k + 1 < size) × Room page.old 17 }
    ensures put { Put page.old page.new (product_text (entry_at k) (entry_at (k + 1))) }
    ensures bound { page.new.at ≤ page.old.at + 17 }
{
    put_name(page, k);
    page.put_text(b" times ");
    put_name(page, k + 1);
}

// The gain set whose Kp is word k does not hold together.
fn put_untied(page: &mut Page, words: &[i32; WORDS], k: usize)
    requires { (k + 2 < size) × Room page.old 126 }
    ensures put { Put page.old page.new (untied_text words.now k) }
    ensures bound { page.new.at ≤ page.old.at + 126 }
{
    put_is(page, k + 2, words[k + 2]);
    page.put_text(b", and must be ");
    put_product(page, k);
}

#[tactic(auto, using(fixed::proofs::Reading::reads), unfolding(crate::specs::Findings::untied_at))]
fn untied_at(s: Settings) -> usize
    ensures { (result ≡ untied_at s) × (result ≤ 4) }
{
    if settings::tied(s.skp, s.skcor, s.ski) {
        4
    } else {
        1
    }
}

// Why settings are refused.
fn put_reason(page: &mut Page, s: Settings, why: Refusal)
    requires { Room page.old 126 }
    ensures put { Put page.old page.new (reason_text s (number_of why)) }
    ensures bound { page.new.at ≤ page.old.at + 126 }
{
    let words = settings::words_of(s);
    if why == Refusal::Untied {
        put_untied(page, &words, untied_at(s));
    } else if let Some(i) = first_out(&words) {
        put_range(page, i, words[i]);
    }
}

fn put_refused(page: &mut Page, s: Settings, why: Refusal)
    requires { Room page.old 149 }
    ensures put { Put page.old page.new (refused_text s (number_of why)) }
    ensures bound { page.new.at ≤ page.old.at + 149 }
{
    page.put_count(u64::from(why.number().unsigned_abs()));
    page.put_text(b": ");
    put_reason(page, s, why);
    page.put_byte(b'\n');
}

fn put_accepted(page: &mut Page, s: Settings)
    requires { Room page.old 602 }
    ensures put { Put page.old page.new (accepted_text s) }
    ensures bound { page.new.at ≤ page.old.at + 602 }
{
    page.put_text(b"0\n");
    sheet::put_lines(page, settings::words_of(s));
}

// Settings that were read: themselves as a sheet, or why they are refused.
fn put_judged(page: &mut Page, s: Settings)
    requires { Room page.old 602 }
    ensures put { Put page.old page.new (judged_text s) }
    ensures bound { page.new.at ≤ page.old.at + 602 }
{
    match settings::check(s) {
        Ok(a) => put_accepted(page, a),
        Err(why) => put_refused(page, s, why),
    }
}

// All that is said of a text.
#[tactic(auto, using(crate::proofs::Laws::fault_some))]
pub fn put_answer(page: &mut Page, text: &[u8])
    requires { Room page.old 602 }
    ensures put { Put page.old page.new (answer_text text.now) }
    ensures bound { page.new.at ≤ page.old.at + 602 }
{
    match sheet::lines(text) {
        Ok(s) => put_judged(page, s),
        Err(i) => put_fault(page, i, from_line(i - 1, text)),
    }
}
