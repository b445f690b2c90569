// Text and numbers, in columns.
ghost use Rattle.std.specs.Prelude.{◌≡◌, ◌-◌, ◌≤◌, min};

use std::fmt;
use std::fmt::Write;

// What cannot be printed is let go: a recovery is not kept from its stores by a report that nobody can read.
pub fn say(out: &impl Print, s: &[u8]) {
    let _ = out.write_all(s);
}

// Where a text of `width` columns at the right end of a field starts, or earlier where the text is longer.
fn start(blank: usize, width: usize) -> usize
    ensures { (result ≡ min blank (26 - width)) × (result ≤ 26) }
{
    blank.min(26usize.saturating_sub(width))
}

// A column is cut from a field of `text`, whose marks have definitions, proofs and edits; a width in a format would have none.
fn column(out: &impl Print, field: [u8; 26], width: usize) {
    let from = start(text::blank(&field), width);
    say(out, &field[from..26]);
}

// A count or a length, as 65,536.
pub fn count(out: &impl Print, n: u64, width: usize) {
    column(out, text::number(n), width);
}

// What a field says in a sentence: its marks from the first that is no blank.
fn write_marks<W: Write>(f: &mut fmt::Formatter<W>, field: &[u8; 26]) -> fmt::Result {
    for mark in &field[start(text::blank(field), 0)..26] {
        f.write_char(char::from(*mark))?;
    }
    Ok(())
}

// A count in a sentence.
#[derive(Clone, Copy)]
pub struct Grouped(pub u64);

impl fmt::Display for Grouped {
    fn fmt<W: Write>(&self, f: &mut fmt::Formatter<W>) -> fmt::Result {
        write_marks(f, &text::number(self.0))
    }
}

// A block number, a place, a position or a refusal's number in a sentence.
#[derive(Clone, Copy)]
pub struct Ungrouped(pub u64);

impl fmt::Display for Ungrouped {
    fn fmt<W: Write>(&self, f: &mut fmt::Formatter<W>) -> fmt::Result {
        write_marks(f, &text::plain(self.0))
    }
}

// A block number, a place or a position, as 1001.
pub fn plain(out: &impl Print, n: u64, width: usize) {
    column(out, text::plain(n), width);
}

// An entry's sixteen bytes as document 01 writes them: flag byte and number, previous, current.
pub fn entry(out: &impl Print, bytes: [u8; 16]) {
    let hex = text::hex(&bytes);
    say(out, &hex[0..16]);
    say(out, b" ");
    say(out, &hex[16..24]);
    say(out, b" ");
    say(out, &hex[24..32]);
}

// A word's eight bytes, as wide as an entry.
pub fn word(out: &impl Print, bytes: [u8; 16]) {
    let hex = text::hex(&bytes);
    say(out, &hex[0..16]);
    say(out, b"                  ");
}
