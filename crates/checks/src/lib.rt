// Checks 5 to 7 of a card: the lowest refusal that holds, 0 for none, at every row of bytes, however damaged; and an index of its numbers.
#![tactic(auto)]

ghost use Rattle.std.specs.Prelude.{◌≡◌, ℕ, ◌+◌, ◌<◌, ◌≤◌, true, false, length, replicate};
ghost use Rattle.protocol.specs.Layout.{version_of};
ghost use Rattle.protocol.specs.Entry.{entry_at};
ghost use Rattle.protocol.specs.Below.{all_below};
ghost use Rattle.protocol.specs.Ring.{find_entry, window_of};
ghost use Rattle.protocol.specs.Check.{entries_fit, damage_refusal, card_refusal};
ghost use Rattle.ring.specs.Fitted.{Fitted, WindowOf, Framed};
ghost use Rattle.checks.specs.Keys.{NONE, entry_key, undoable_entry, number_key, keyed, distinct};
ghost use Rattle.checks.specs.Chain.{last_below, Chains, Blank, Entered, Chained};
ghost use Rattle.checks.specs.Fields.{Field, over_of, Numbered};
ghost use Rattle.checks.specs.Marks.{slot_once, Marked};
ghost use Rattle.checks.specs.Passed.{Decoded, Comparable, Indexed, Windowed, Settles, Unsettled, Weighed, Inspected, Examined};

use protocol::{Entry, Geometry, Map};
use ring::{Fit, Window};

// Entry i of the card.
pub fn entry_of(g: Geometry, card: &[u8], i: usize) -> Entry
    requires { Fitted g card.now × (i < g.blocks) }
    ensures { result ≡ entry_at g card.now i }
{
    let at = 128 + 8 * g.slots + 16 * i as u64;
    codec::entry_at(card, at as usize)
}

// The `width` bytes of entry i that start at its byte `from`.
fn field_of(g: Geometry, card: &[u8], i: usize, from: usize, width: usize) -> u64
    requires { Fitted g card.now × (i < g.blocks) × (from + width ≤ 16) × (width ≤ 8) }
    ensures { Field g card.now i from width result }
{
    let at = 128 + 8 * g.slots + 16 * i as u64;
    numbers::get(card, at as usize + from, width)
}

// Puts entry i with the number b at the end of its chain: the index has 512 ends of chains by remainder, and then for each entry the one before
// it in its chain, as one more than their places, 0 for none. Hands back the one before.
fn enter(index: &mut [u8; 640], i: usize, b: u64) -> u8
    requires { (length index.old ≡ 640) × (i < 128) }
    ensures { Entered index.old i b index.new result }
{
    let r = (b % 512) as usize;
    let before = index[r];
    index[512 + i] = before;
    index[r] = i as u8 + 1;
    before
}

// What one pass over the entries finds: whether check 5 allows them all, whether none has R, the map of their current blocks and of those that
// the card does not have, the marks it would have were each another block, and a byte that is 0 where no two numbers share a chain.
#[derive(Clone, Copy)]
pub struct Seen {
    pub fits: bool,
    pub quiet: bool,
    pub shared: u8,
    pub count: u64,
    pub map: Map,
}

fn misfit() -> Seen
    ensures { result.fits ≡ false }
{
    Seen {
        fits: false,
        quiet: false,
        shared: 0,
        count: 0,
        map: Map { low: 0, high: 0 },
    }
}

// The flag byte 82 with P, as a word: on a version 1 card without it.
fn over_of(version: u64) -> u64
    ensures { result ≡ over_of version }
{
    if version == 2 {
        0x8600_0000_0000_0000
    } else {
        0x8200_0000_0000_0000
    }
}

// Answered where a word has no number: the compiler sees that nothing below D equals it, so that a number found is not compared with D again.
const NO_NUMBER: u64 = 0xFFFF_FFFF_FFFF_FFFF;

// The number in a word of flag byte and number, if the flag byte is allowed and the number below D. Each allowed flag byte is subtracted in turn, 86
// first: a block that is saved again and again has it. On a version 1 card `more` is 82, and is so subtracted twice.
fn number_of(w: u64, disk: u64, more: u64) -> u64
    requires { (disk ≤ 65536) × (more ≤ 0x8600000000000000) }
    ensures { (v : ℕ) → more ≡ over_of v → Numbered v w disk result }
{
    let over = w.wrapping_sub(more);
    if over < disk {
        return over;
    }
    let modified = w.wrapping_sub(0x8200_0000_0000_0000);
    if modified < disk {
        return modified;
    }
    let clean = w.wrapping_sub(0x8000_0000_0000_0000);
    if clean < disk {
        return clean;
    }
    let logged = w.wrapping_sub(0x8300_0000_0000_0000);
    if logged < disk {
        return logged;
    }
    let last = w.wrapping_sub(more + 0x0100_0000_0000_0000);
    if last < disk {
        return last;
    }
    NO_NUMBER
}

// One pass over the entries, each read once, flag byte and number as one word. FRESH passes as the number before 0. The words are laid over each
// other and asked for R at the end: one that is used in parts is read byte by byte.
fn decode(g: Geometry, version: u64, card: &[u8], index: &mut [u8; 640]) -> Seen
    requires { Fitted g card.now × Blank index.old × (version ≡ version_of card.now) }
    ensures { Decoded g card.now index.new result }
{
    let n = g.blocks as usize;
    let more = over_of(version);
    let mut roles: u64 = 0;
    let mut shared = 0;
    let mut count = 128 - g.blocks;
    let mut map = freemap::beyond(n);
    for i in 0..n {
        let w = field_of(g, card, i, 0, 8);
        let p = field_of(g, card, i, 8, 4);
        let q = field_of(g, card, i, 12, 4);
        if w == 0 {
            if (p | q) != 0 {
                return misfit();
            }
        } else {
            if (g.blocks <= q) | (g.blocks < (p + 1) % 0x1_0000_0000) {
                return misfit();
            }
            let b = number_of(w, g.disk, more);
            if b == NO_NUMBER {
                return misfit();
            }
            roles |= w;
            map = freemap::with(map, q as usize);
            count += 1;
            shared |= enter(index, i, b);
        }
    }
    Seen {
        fits: true,
        quiet: roles / 0x0100_0000_0000_0000 % 2 != 1,
        shared,
        count,
        map,
    }
}

// One more than the place of the last entry of a chain that has the number b, from the one before `from` down; 0 where none has.
fn chase(g: Geometry, card: &[u8], index: &[u8; 640], b: u64, from: u8) -> usize
    requires { Fitted g card.now × (entries_fit g card.now ≡ true) × Chained g card.now index.now b from }
    ensures { result ≡ last_below (keyed (number_key g card.now) b) from }
{
    let mut at = usize::from(from);
    while 0 < at {
        if field_of(g, card, at - 1, 4, 4) == b {
            return at;
        }
        at = usize::from(index[512 + at - 1]);
    }
    0
}

// Whether no two entries in use have one number. Each is compared with those before it in its chain, mostly none.
fn numbers_apart(g: Geometry, card: &[u8], index: &[u8; 640]) -> bool
    requires { Fitted g card.now × (entries_fit g card.now ≡ true) × Chains (number_key g card.now) index.now g.blocks }
    ensures { result ≡ distinct (number_key g card.now) NONE g.blocks }
{
    let n = g.blocks as usize;
    for i in 0..n {
        let from = index[512 + i];
        if from != 0 && chase(g, card, index, field_of(g, card, i, 4, 4), from) != 0 {
            return false;
        }
    }
    true
}

// Whether the entry e is undoable: in use, and with R or its number in the window.
pub fn undoable(g: Geometry, card: &[u8], w: Window, e: Entry) -> bool
    requires { Fitted g card.now × WindowOf g card.now w }
    ensures { result ≡ undoable_entry g card.now e }
{
    if !codec::in_use(e) {
        return false;
    }
    if codec::has_log_role(e) {
        return true;
    }
    ring::in_window(g, card, w, e.number)
}

// The place of the entry in use for b, N where there is none.
pub fn find(g: Geometry, card: &[u8], index: &[u8; 640], b: u64) -> usize
    requires { Indexed g card.now index.now × (b < NONE) }
    ensures { result ≡ find_entry g card.now b }
{
    let at = chase(g, card, index, b, index[(b % 512) as usize]);
    if at == 0 { g.blocks as usize } else { at - 1 }
}

// Marks the entry of the number in the window's slot j, and answers whether there is one, with R and not marked by a slot before.
fn mark(
    g: Geometry,
    card: &[u8],
    index: &[u8; 640],
    w: Window,
    j: u64,
    marks: &mut [u8; 128],
) -> bool
    requires { Windowed g card.now index.now w × (j < w.count) × Marked g card.now marks.old j }
    ensures { Marked g card.now marks.new (j + 1) × (result ≡ slot_once g card.now j) }
{
    let at = find(g, card, index, ring::window_number(g, card, w, j));
    if g.blocks as usize <= at {
        return false;
    }
    let before = marks[at];
    marks[at] = 1;
    (before == 0) & codec::has_log_role(entry_of(g, card, at))
}

// Marks the entries whose numbers stand in the window, each found by the index; and whether each number stands there once, with R in its entry.
fn mark_window(
    g: Geometry,
    card: &[u8],
    index: &[u8; 640],
    w: Window,
    marks: &mut [u8; 128],
) -> bool
    requires { Windowed g card.now index.now w × (marks.old ≡ replicate 128 0) }
    ensures { Marked g card.now marks.new w.count × (result ≡ all_below (slot_once g card.now) w.count) }
{
    let mut once = true;
    for j in 0..w.count {
        once &= mark(g, card, index, w, j, marks);
    }
    once
}

// The key of an entry's settled block, from whether its number stands in the window: FRESH where it has none.
fn settled_key(e: Entry, marked: bool) -> u32
    ensures { result ≡ entry_key e marked }
{
    if !codec::in_use(e) {
        return 65536;
    }
    if codec::has_log_role(e) | marked {
        e.previous
    } else {
        e.current
    }
}

// Whether no two settled blocks are equal, and their map; and whether each entry with R has its number in the window.
#[derive(Clone, Copy)]
pub struct Settling {
    pub apart: bool,
    pub roles: bool,
    pub map: Map,
}

// One pass over the marked entries. Settled blocks are apart where as many are marked as there are.
fn settle(g: Geometry, card: &[u8], marks: &[u8; 128]) -> Settling
    requires { Fitted g card.now × Marked g card.now marks.now (window_of g card.now) }
    ensures { Settles g card.now result }
{
    let n = g.blocks as usize;
    let mut roles = true;
    let mut count: u64 = 0;
    let mut map = Map { low: 0, high: 0 };
    for i in 0..n {
        let e = entry_of(g, card, i);
        let marked = marks[i] != 0;
        let k = settled_key(e, marked) as usize;
        roles &= !(codec::in_use(e) & codec::has_log_role(e)) | marked;
        if k < 128 {
            map = freemap::with(map, k);
            count += 1;
        }
    }
    Settling {
        apart: freemap::free_count(map) + count == 128,
        roles,
        map,
    }
}

// Whether no two numbers are equal, from whether some share a chain.
fn numbers_differ(g: Geometry, card: &[u8], index: &[u8; 640], shared: bool) -> bool
    requires { Comparable g card.now index.now shared }
    ensures { result ≡ distinct (number_key g card.now) NONE g.blocks }
{
    if !shared {
        return true;
    }
    numbers_apart(g, card, index)
}

// What checks 4 to 6 find, and where they find nothing, whether the card is settled, whether its entries with R match the window's numbers one to
// one, how many of its data blocks are free, its map, and the map of its current blocks alone.
#[derive(Clone, Copy)]
pub struct Verdict {
    pub refusal: u8,
    pub settled: bool,
    pub matched: bool,
    pub free: u64,
    pub map: Map,
    pub currents: Map,
}

fn refused(refusal: u8) -> Verdict
    ensures { result.refusal ≡ refusal }
{
    Verdict {
        refusal,
        settled: false,
        matched: false,
        free: 0,
        map: Map { low: 0, high: 0 },
        currents: Map { low: 0, high: 0 },
    }
}

// The verdict on a settled card: its settled blocks are its current ones, and no previous block is kept.
fn settled_verdict(free: u64, map: Map) -> Verdict
    ensures { result ≡ record { refusal = 0; settled = true; matched = true; free = free; map = map; currents = map } }
{
    Verdict {
        refusal: 0,
        settled: true,
        matched: true,
        free,
        map,
        currents: map,
    }
}

// The verdict on a card that is not settled. Its map has besides the current blocks the settled ones: what these add are the previous blocks of
// undoable entries.
fn unsettled_verdict(g: Geometry, card: &[u8], index: &[u8; 640], currents: Map) -> Verdict
    requires { Unsettled g card.now index.now currents }
    ensures { Weighed g card.now index.now result }
{
    let mut marks = [0u8; 128];
    let w = ring::window_of(g, card);
    let once = mark_window(g, card, index, w, &mut marks);
    let s = settle(g, card, &marks);
    if !s.apart {
        return refused(6);
    }
    let map = freemap::moved(currents, Map { low: 0, high: 0 }, s.map);
    Verdict {
        refusal: 0,
        settled: false,
        matched: once & s.roles,
        free: freemap::free_count(map),
        map,
        currents,
    }
}

// Checks 4 to 6, and with them the index of the card's numbers for whoever looks for one next, and its map.
pub fn inspect(f: Fit, card: &[u8], index: &mut [u8; 640]) -> Verdict
    requires { Framed card.now f × Blank index.old }
    ensures { Inspected f.geometry card.now index.new result }
{
    if !ring::ring_fits(f, card) {
        return refused(4);
    }
    let seen = decode(f.geometry, f.version, card, index);
    if !seen.fits {
        return refused(5);
    }
    let free = freemap::free_count(seen.map);
    if free + seen.count != 128 {
        return refused(6);
    }
    if !numbers_differ(f.geometry, card, index, seen.shared != 0) {
        return refused(6);
    }
    if (f.head == f.tail) & seen.quiet {
        return settled_verdict(free, seen.map);
    }
    unsettled_verdict(f.geometry, card, index, seen.map)
}

// 4 to 6: a damaged card.
pub fn damage_refusal(f: Fit, card: &[u8]) -> u8
    requires { Framed card.now f }
    ensures { result ≡ damage_refusal f.geometry card.now }
{
    let mut index = [0u8; 640];
    inspect(f, card, &mut index).refusal
}

// 4 to 7: a damaged card, or one that an earlier cut left unsettled. The index is of a card that passed them.
pub fn examine(f: Fit, card: &[u8], index: &mut [u8; 640]) -> Verdict
    requires { Framed card.now f × Blank index.old }
    ensures { Examined f.geometry card.now index.new result }
{
    let v = inspect(f, card, index);
    if v.refusal != 0 {
        return v;
    }
    if v.settled { v } else { refused(7) }
}

// 4 to 7 alone.
pub fn card_refusal(f: Fit, card: &[u8]) -> u8
    requires { Framed card.now f }
    ensures { result ≡ card_refusal f.geometry card.now }
{
    let mut index = [0u8; 640];
    examine(f, card, &mut index).refusal
}
