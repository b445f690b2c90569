// The answers of the cache's calls as plain structs, and the map and the record as words that a station lends: what the C interface is made of.
#![tactic(auto)]

ghost use Rattle.std.specs.Prelude.{◌≡◌};
ghost use Rattle.plain.specs.Plain.{plain_answer, plain_outcome, plain_place, plain_state, plain_entry, plain_map, plain_record, lent_record, record_after, other_map, lent_map, words_of, words_after};

use lookup::{Cached, Found};
use protocol::{Answer, Condition, Map, Mapped, Opened, Outcome, Pending, Reported, State, Stored};

// kind 0 done, with the stores made; 1 cut; 2 refused, with the number
#[repr(C)]
#[derive(Clone, Copy)]
pub struct TincaAnswer {
    pub kind: u32,
    pub refusal: u32,
    pub stores: u64,
}

// kind 0 on the card, 1 on the disk, at offset; 2 refused, with the number
#[repr(C)]
#[derive(Clone, Copy)]
pub struct TincaPlace {
    pub kind: u32,
    pub refusal: u32,
    pub offset: u64,
    pub length: u64,
}

// kind 0 settled: in use, modified; 1 unsettled: undoable, window; 2 refused, with the number
#[repr(C)]
#[derive(Clone, Copy)]
pub struct TincaState {
    pub kind: u32,
    pub refusal: u32,
    pub k: u64,
    pub slots: u64,
    pub blocks: u64,
    pub disk: u64,
    pub first: u64,
    pub second: u64,
}

// kind 0 made: the map's two words; 2 refused, with the number
#[repr(C)]
#[derive(Clone, Copy)]
pub struct TincaMap {
    pub kind: u32,
    pub refusal: u32,
    pub low: u64,
    pub high: u64,
}

// kind 0 open: the record's Tail and count; 2 refused, with the number
#[repr(C)]
#[derive(Clone, Copy)]
pub struct TincaRecord {
    pub kind: u32,
    pub refusal: u32,
    pub tail: u64,
    pub count: u64,
}

// kind 0 cached: the block's number, modified 1 or 0; 1 nothing; 2 refused, with the number
#[repr(C)]
#[derive(Clone, Copy)]
pub struct TincaEntry {
    pub kind: u32,
    pub refusal: u32,
    pub block: u64,
    pub modified: u64,
}

pub fn answer(a: Answer) -> TincaAnswer
    ensures { result ≡ plain_answer a }
{
    match a {
        Answer::Done(m) => TincaAnswer {
            kind: 0,
            refusal: 0,
            stores: m,
        },
        Answer::Cut => TincaAnswer {
            kind: 1,
            refusal: 0,
            stores: 0,
        },
        Answer::Refused(r) => TincaAnswer {
            kind: 2,
            refusal: r as u32,
            stores: 0,
        },
    }
}

pub fn outcome(o: Outcome) -> TincaAnswer
    ensures { result ≡ plain_outcome o }
{
    match o {
        Outcome::Done => TincaAnswer {
            kind: 0,
            refusal: 0,
            stores: 0,
        },
        Outcome::Refused(r) => TincaAnswer {
            kind: 2,
            refusal: r as u32,
            stores: 0,
        },
    }
}

fn at_place(kind: u32, offset: usize, length: usize) -> TincaPlace
    ensures { result ≡ record { kind = kind; refusal = 0; offset = offset; length = length } }
{
    TincaPlace {
        kind,
        refusal: 0,
        offset: offset as u64,
        length: length as u64,
    }
}

fn no_place(refusal: u32) -> TincaPlace
    ensures { result ≡ record { kind = 2; refusal = refusal; offset = 0; length = 0 } }
{
    TincaPlace {
        kind: 2,
        refusal,
        offset: 0,
        length: 0,
    }
}

pub fn place(f: Found) -> TincaPlace
    ensures { result ≡ plain_place f }
{
    match f {
        Found::Card(at, size, _) => at_place(0, at, size),
        Found::Disk(at, size) => at_place(1, at, size),
        Found::Refused(r) => no_place(r as u32),
        Found::Outside(_) => no_place(10),
    }
}

fn told(s: State) -> TincaState
    ensures { result ≡ plain_state (Reported.Is s) }
{
    let g = s.geometry;
    match s.condition {
        Condition::Settled { used, modified } => TincaState {
            kind: 0,
            refusal: 0,
            k: g.k,
            slots: g.slots,
            blocks: g.blocks,
            disk: g.disk,
            first: used,
            second: modified,
        },
        Condition::Unsettled { undoable, window } => TincaState {
            kind: 1,
            refusal: 0,
            k: g.k,
            slots: g.slots,
            blocks: g.blocks,
            disk: g.disk,
            first: undoable,
            second: window,
        },
    }
}

fn untold(refusal: u32) -> TincaState
    ensures { result ≡ record { kind = 2; refusal = refusal; k = 0; slots = 0; blocks = 0; disk = 0; first = 0; second = 0 } }
{
    TincaState {
        kind: 2,
        refusal,
        k: 0,
        slots: 0,
        blocks: 0,
        disk: 0,
        first: 0,
        second: 0,
    }
}

pub fn state(s: Reported) -> TincaState
    ensures { result ≡ plain_state s }
{
    match s {
        Reported::Is(t) => told(t),
        Reported::Refused(r) => untold(r as u32),
    }
}

fn entry_told(kind: u32, refusal: u32, block: u64, modified: u64) -> TincaEntry
    ensures { result ≡ record { kind = kind; refusal = refusal; block = block; modified = modified } }
{
    TincaEntry {
        kind,
        refusal,
        block,
        modified,
    }
}

pub fn entry(c: Cached) -> TincaEntry
    ensures { result ≡ plain_entry c }
{
    match c {
        Cached::Block(b, modified) => {
            if modified {
                entry_told(0, 0, b, 1)
            } else {
                entry_told(0, 0, b, 0)
            }
        }
        Cached::Nothing => entry_told(1, 0, 0, 0),
        Cached::Refused(r) => entry_told(2, r as u32, 0, 0),
    }
}

pub fn mapped(m: Mapped) -> TincaMap
    ensures { result ≡ plain_map m }
{
    match m {
        Mapped::Is(w) => TincaMap {
            kind: 0,
            refusal: 0,
            low: w.low,
            high: w.high,
        },
        Mapped::Refused(r) => TincaMap {
            kind: 2,
            refusal: r as u32,
            low: 0,
            high: 0,
        },
    }
}

pub fn recorded(o: Opened) -> TincaRecord
    ensures { result ≡ plain_record o }
{
    match o {
        Opened::Is(p) => TincaRecord {
            kind: 0,
            refusal: 0,
            tail: p.tail,
            count: p.count,
        },
        Opened::Refused(r) => TincaRecord {
            kind: 2,
            refusal: r as u32,
            tail: 0,
            count: 0,
        },
    }
}

// A map that is not m: one word turned over.
fn other(m: Mapped) -> Map
    ensures { result ≡ other_map m }
{
    match m {
        Mapped::Is(w) => Map {
            low: !w.low,
            high: w.high,
        },
        Mapped::Refused(_) => Map { low: 0, high: 0 },
    }
}

// The map that the station lends. Where it is not of two words the call gets one that is not the card's, and asks 15 in its turn.
pub fn lent(card: &[u8], words: &[u64]) -> Map
    ensures { result ≡ lent_map card.now words.now }
{
    if words.len() == 2 {
        return Map {
            low: words[0],
            high: words[1],
        };
    }
    other(recovery::make_map(card))
}

// The map's two words, where there is room for just them.
fn put_words(words: &mut [u64], m: Map)
    ensures { words.new ≡ words_of m words.old }
{
    if words.len() == 2 {
        words[0] = m.low;
        words[1] = m.high;
    }
}

// The record that the station lends. Where it is not of two words the call gets one whose Tail no card has, and asks 18 in its turn.
pub fn lent_record(words: &[u64]) -> Pending
    ensures { result ≡ lent_record words.now }
{
    if words.len() == 2 {
        return Pending {
            tail: words[0],
            count: words[1],
        };
    }
    Pending {
        tail: u64::MAX,
        count: u64::MAX,
    }
}

// On done the record in the station's words.
pub fn put_record(words: &mut [u64], a: Answer, p: Pending)
    ensures { words.new ≡ record_after a p words.old }
{
    if let Answer::Done(_) = a {
        put_words(
            words,
            Map {
                low: p.tail,
                high: p.count,
            },
        );
    }
}

// The answer, and on done the map in the station's words.
pub fn handed(words: &mut [u64], s: Stored) -> TincaAnswer
    ensures answer { result ≡ plain_answer s.answer }
    ensures words { words.new ≡ words_after s.answer s.map words.old }
{
    if let Answer::Done(_) = s.answer {
        put_words(words, s.map);
    }
    answer(s.answer)
}
