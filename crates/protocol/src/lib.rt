// The types of the cache's calls, and the words that a program prints of an answer. What the calls mean stands in specs/, in the order of document 01.
#![tactic(auto)]

use std::fmt;

// An entry's previous block where the block number was not cached before: no data block has this number.
pub const FRESH: u32 = 0xFFFF_FFFF;

// The geometry of a card and its disk: blocks of two to the power k bytes, the ring's slots, the card's data blocks, the disk's blocks.
#[derive(Clone, Copy)]
pub struct Geometry {
    pub k: u64,
    pub slots: u64,
    pub blocks: u64,
    pub disk: u64,
}

// An entry's four fields: flag byte, disk block number, previous and current data block.
#[derive(Clone, Copy, PartialEq, Eq)]
pub struct Entry {
    pub flags: u8,
    pub number: u64,
    pub previous: u32,
    pub current: u32,
}

// The answer to a storing call: all its stores were made, and how many; the power failed before the last one; or a refusal's number.
#[derive(Clone, Copy)]
pub enum Answer {
    Done(u64),
    Cut,
    Refused(u8),
}

impl fmt::Display for Answer {
    fn fmt<W: fmt::Write>(&self, f: &mut fmt::Formatter<W>) -> fmt::Result {
        match self {
            Answer::Done(stores) => write!(f, "done {stores}"),
            Answer::Cut => write!(f, "cut"),
            Answer::Refused(r) => write!(f, "refused {r}"),
        }
    }
}

// A map of the card's data blocks, a bit for each: bit d mod 64, from the lowest, of word d / 64 is set unless data block d is free.
#[derive(Clone, Copy, PartialEq, Eq)]
pub struct Map {
    pub low: u64,
    pub high: u64,
}

// The map that a card gives, or a refusal's number.
#[derive(Clone, Copy)]
pub enum Mapped {
    Is(Map),
    Refused(u8),
}

// The record of a pending save: Tail's position and how many blocks were put.
#[derive(Clone, Copy)]
pub struct Pending {
    pub tail: u64,
    pub count: u64,
}

// The record of a save that was opened, or a refusal's number.
#[derive(Clone, Copy)]
pub enum Opened {
    Is(Pending),
    Refused(u8),
}

// What a storing call hands back: its answer, and the map.
#[derive(Clone, Copy)]
pub struct Stored {
    pub answer: Answer,
    pub map: Map,
}

// The answer to a call without a count: done, or a refusal's number.
#[derive(Clone, Copy)]
pub enum Outcome {
    Done,
    Refused(u8),
}

impl fmt::Display for Outcome {
    fn fmt<W: fmt::Write>(&self, f: &mut fmt::Formatter<W>) -> fmt::Result {
        match self {
            Outcome::Done => write!(f, "done"),
            Outcome::Refused(r) => write!(f, "refused {r}"),
        }
    }
}

// A single entry as it was read: its fields, or a refusal's number.
#[derive(Clone, Copy)]
pub enum Decoded {
    Fields(Entry),
    Refused(u8),
}

// A single entry as it was written: sixteen bytes, all zero where it was refused.
#[derive(Clone, Copy)]
pub struct Encoded {
    pub outcome: Outcome,
    pub bytes: [u8; 16],
}

// Which medium held a block that was read.
#[derive(Clone, Copy)]
pub enum Held {
    Card,
    Disk,
    Refused(u8),
}

impl fmt::Display for Held {
    fn fmt<W: fmt::Write>(&self, f: &mut fmt::Formatter<W>) -> fmt::Result {
        match self {
            Held::Card => write!(f, "card"),
            Held::Disk => write!(f, "disk"),
            Held::Refused(r) => write!(f, "refused {r}"),
        }
    }
}

// A card's condition: settled, with its in-use and modified entries, or unsettled, with its undoable entries and the window's slots.
#[derive(Clone, Copy)]
pub enum Condition {
    Settled { used: u64, modified: u64 },
    Unsettled { undoable: u64, window: u64 },
}

impl fmt::Display for Condition {
    fn fmt<W: fmt::Write>(&self, f: &mut fmt::Formatter<W>) -> fmt::Result {
        match self {
            Condition::Settled { used, modified } => write!(f, "settled {used} {modified}"),
            Condition::Unsettled { undoable, window } => write!(f, "unsettled {undoable} {window}"),
        }
    }
}

// The geometry together with the condition.
#[derive(Clone, Copy)]
pub struct State {
    pub geometry: Geometry,
    pub condition: Condition,
}

impl fmt::Display for State {
    fn fmt<W: fmt::Write>(&self, f: &mut fmt::Formatter<W>) -> fmt::Result {
        let g = &self.geometry;
        write!(
            f,
            "{} {} {} {} {}",
            g.k, g.slots, g.blocks, g.disk, self.condition
        )
    }
}

// A card's state, or a refusal's number.
#[derive(Clone, Copy)]
pub enum Reported {
    Is(State),
    Refused(u8),
}

impl fmt::Display for Reported {
    fn fmt<W: fmt::Write>(&self, f: &mut fmt::Formatter<W>) -> fmt::Result {
        match self {
            Reported::Is(state) => write!(f, "{state}"),
            Reported::Refused(r) => write!(f, "refused {r}"),
        }
    }
}
