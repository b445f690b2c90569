// A refusal in a sentence: what is wrong with the card or with what was asked of it, and who can cause it.
#![tactic(auto)]

use faults::Fault;
use listing::{Grouped, Ungrouped};
use std::fmt;

// Document 01's "Who can cause a refusal".
fn cause(number: u8) -> &'static str {
    match number {
        0..=3 => "the fitter",
        4..=6 => "a damaged card",
        7 => "an earlier cut",
        _ => "the caller",
    }
}

// What a call that takes versions from low to high wants.
fn version(low: u64, high: u64) -> &'static str {
    if low != high {
        "the version is neither 1 nor 2"
    } else if high == 1 {
        "the version is not 1"
    } else {
        "the version is not 2, and a card of version 1 must be upgraded first"
    }
}

// A fault of a card's entries: by their places, the earlier of two first.
#[derive(Clone, Copy)]
struct OfEntries(Fault);

impl fmt::Display for OfEntries {
    fn fmt<W: fmt::Write>(&self, f: &mut fmt::Formatter<W>) -> fmt::Result {
        match self.0 {
            Fault::Flags(i) => write!(
                f,
                "the flag byte of entry {} is not 80, 82 or 83, nor with version 2 86 or 87",
                Ungrouped(i)
            ),
            Fault::NotZero(i) => write!(
                f,
                "entry {} has flag byte 00 and is not all zero",
                Ungrouped(i)
            ),
            Fault::Number(i) => write!(f, "the number of entry {} is not below D", Ungrouped(i)),
            Fault::Current(i) => write!(
                f,
                "the current block of entry {} is not below N",
                Ungrouped(i)
            ),
            Fault::Previous(i) => write!(
                f,
                "the previous block of entry {} is neither below N nor FRESH",
                Ungrouped(i)
            ),
            Fault::SameNumber(i, j) => write!(
                f,
                "entries {} and {} have equal numbers",
                Ungrouped(j),
                Ungrouped(i)
            ),
            Fault::SameCurrent(i, j) => write!(
                f,
                "entries {} and {} have equal current blocks",
                Ungrouped(j),
                Ungrouped(i)
            ),
            Fault::SameSettled(i, j) => write!(
                f,
                "entries {} and {} have equal settled blocks",
                Ungrouped(j),
                Ungrouped(i)
            ),
            _ => Ok(()),
        }
    }
}

// A fault, as a call that takes versions from low to high tells it.
#[derive(Clone, Copy)]
struct Told {
    fault: Fault,
    low: u64,
    high: u64,
}

impl fmt::Display for Told {
    fn fmt<W: fmt::Write>(&self, f: &mut fmt::Formatter<W>) -> fmt::Result {
        match self.fault {
            Fault::Short => write!(f, "the card has under 128 bytes"),
            Fault::HeaderLength => write!(f, "the header's length is not 64"),
            Fault::Version => write!(f, "{}", version(self.low, self.high)),
            Fault::K => write!(f, "k is not from 9 to 12"),
            Fault::Slots => write!(f, "S is not a multiple of 8 from 8 to 256"),
            Fault::Blocks => write!(f, "N is not a multiple of 4 from 4 to 128"),
            Fault::Disk => write!(f, "D is not from 1 to 65,536"),
            Fault::Reserved => write!(f, "bytes 16 to 63 are not all zero"),
            Fault::Length(n) => write!(f, "the header asks for a card of {} bytes", Grouped(n)),
            Fault::Head => write!(f, "Head is not below S"),
            Fault::Tail => write!(f, "Tail is not below S"),
            Fault::WindowNumber(p) => write!(
                f,
                "the number in slot {}, in the window, is not below D",
                Ungrouped(p)
            ),
            fault => write!(f, "{}", OfEntries(fault)),
        }
    }
}

// A refusal by a call that takes versions from low to high, with its number and the fault behind it, in one line.
pub fn fault(out: &impl Print, number: u8, fault: Fault, low: u64, high: u64) {
    let _ = println!(out;
        "refused with {}: {}. Cause: {}.",
        Ungrouped(u64::from(number)),
        Told { fault, low, high },
        cause(number)
    );
}

// What is asked for and cannot be.
fn unmet(number: u8) -> &'static str {
    match number {
        3 => "the disk's length is not D times B",
        7 => "the card is not settled and must be recovered first",
        8 => "a commit of no block or of more than S - 1",
        11 => "a commit has the same number twice",
        14 => "there are too few free data blocks",
        _ => "the block number is not below D",
    }
}

// A refusal that is no fault of the card by itself: 3, 7, 8, 10, 11 or 14.
pub fn refusal(out: &impl Print, number: u8) {
    let _ = println!(out;
        "refused with {}: {}. Cause: {}.",
        Ungrouped(u64::from(number)),
        unmet(number),
        cause(number)
    );
}
