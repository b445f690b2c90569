// What stands on a card image of either version, at every row of bytes, however damaged.
#![tactic(auto)]

ghost use Rattle.std.specs.Prelude.{◌≡◌, cond, ◌≤◌, ◌<◌};
ghost use Rattle.protocol.specs.Layout.{geometry_of, version_of, entry_place};
ghost use Rattle.protocol.specs.Entry.{entry_at, is_unused};
ghost use Rattle.ring.specs.Fitted.{Fitted};
ghost use Rattle.survey.specs.Raw.{field_in, ring_known, slot_of, line_in, line_of, needed_by, Known, block_in, block_of};

use protocol::{Entry, Geometry};

// An entry: out of reach, unused, as it stands, or with whether it is undoable and its settled block.
#[derive(Clone, Copy)]
pub enum Line {
    Missing,
    Unused,
    Raw(Entry),
    Full(Entry, bool, u32),
}

// A number of `width` bytes at byte `at`, where the card reaches that far.
pub fn field_in(card: &[u8], at: usize, width: usize) -> Option<u64>
    ensures { result ≡ field_in card.now at width }
{
    if 8 < width {
        return None;
    }
    if card.len() < width {
        return None;
    }
    if card.len() - width < at {
        return None;
    }
    Some(numbers::get(card, at, width))
}

// Whether the window is defined: checks 1 and 2 pass, Head and Tail are below S.
pub fn ring_known(card: &[u8]) -> bool
    ensures { result ≡ ring_known card.now }
{
    if ring::fit_refusal(card, 1, 2) != 0 {
        return false;
    }
    let g = ring::geometry_of(card);
    (ring::head_of(card) < g.slots) & (ring::tail_of(card) < g.slots)
}

// Slot j of the window, counted from Tail: its position and the number in it, where the window is defined and has a slot j.
pub fn slot_of(card: &[u8], j: u64) -> Option<(u64, u64)>
    ensures { result ≡ slot_of card.now j }
{
    if !ring_known(card) {
        return None;
    }
    let g = ring::geometry_of(card);
    let w = ring::window_of(g, card);
    if w.count <= j {
        return None;
    }
    let place = ring::forward(g.slots, w.tail, j);
    Some((place, ring::window_number(g, card, w, j)))
}

// Whether all four fields are zero.
pub fn is_unused(e: Entry) -> bool
    ensures { result ≡ is_unused e }
{
    (e.flags == 0) & ((e.number == 0) & ((e.previous == 0) & (e.current == 0)))
}

// The settled block of an entry in use.
pub fn settled(undoable: bool, e: Entry) -> u32
    ensures { result ≡ cond undoable e.previous e.current }
{
    if undoable { e.previous } else { e.current }
}

// The entry e, which is entry i, with undoable and settled block where they are defined.
fn line_in(g: Geometry, version: u64, card: &[u8], i: u64, e: Entry) -> Line
    requires { (g ≡ geometry_of card.now) × (version ≡ version_of card.now) × (e ≡ entry_at g card.now i) }
    ensures { result ≡ line_in g card.now i }
{
    if is_unused(e) {
        return Line::Unused;
    }
    if !codec::good_entry(version, g.blocks, g.disk, e) {
        return Line::Raw(e);
    }
    if !ring_known(card) {
        return Line::Raw(e);
    }
    let undoable = checks::undoable(g, card, ring::window_of(g, card), e);
    Line::Full(e, undoable, settled(undoable, e))
}

fn entry_place(g: Geometry, i: u64) -> usize
    requires { (g.slots ≤ 256) × (i < 128) }
    ensures { (result ≡ entry_place g i) × (result < 8192) }
{
    (128 + 8 * g.slots + 16 * i) as usize
}

// Entry i, as far as the card reaches and its header can be trusted.
pub fn line_of(card: &[u8], i: u64) -> Line
    ensures { result ≡ line_of card.now i }
{
    if !ring::header_fits(card, 1, 2) {
        return Line::Missing;
    }
    let g = ring::geometry_of(card);
    if g.blocks <= i {
        return Line::Missing;
    }
    let at = entry_place(g, i);
    if card.len() < at + 16 {
        return Line::Missing;
    }
    let version = ring::version_of(card);
    line_in(g, version, card, i, codec::entry_at(card, at))
}

// Whether entry i needs data block p: as its current block or, where the window is defined, as the previous one of an undoable entry.
fn taken_by(g: Geometry, card: &[u8], known: bool, p: u64, i: usize) -> bool
    requires { Known g card.now known × (i < g.blocks) }
    ensures { result ≡ needed_by g card.now p i }
{
    let e = checks::entry_of(g, card, i);
    if codec::in_use(e) & (u64::from(e.current) == p) {
        return true;
    }
    if !(known & (u64::from(e.previous) == p)) {
        return false;
    }
    checks::undoable(g, card, ring::window_of(g, card), e)
}

// Whether data block p, below N, is free.
fn block_in(g: Geometry, card: &[u8], known: bool, p: u64) -> bool
    requires { Known g card.now known }
    ensures { result ≡ block_in g card.now p }
{
    !(0..g.blocks as usize).any(|i| taken_by(g, card, known, p, i))
}

// Whether data block p is free, where the card passes checks 1 and 2 and has such a block.
pub fn block_of(card: &[u8], p: u64) -> Option<bool>
    ensures { result ≡ block_of card.now p }
{
    if ring::fit_refusal(card, 1, 2) != 0 {
        return None;
    }
    let g = ring::geometry_of(card);
    if g.blocks <= p {
        return None;
    }
    Some(block_in(g, card, ring_known(card), p))
}
