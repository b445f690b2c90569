// A supply that cuts recoveries too (document 02, ask 12): a commit of three blocks is cut at each of its stores, and the card is then recovered with
// an allowance of one store, again and again, until a recovery answers done. Counted are these recoveries and the stores that they make together:
// for n blocks at most n + 1 each. Then the three blocks are read: all as before the commit, all as it stored them, or torn. Blocks of 512 bytes,
// eight slots, eight data blocks, sixteen disk blocks.
#![tactic(auto)]

use protocol::{Answer, Map, Mapped, Stored};
use std::{fmt, io};

const AMPLE: u64 = u64::MAX;

// The stores of a commit of three blocks: 3 * (64 + 4) + 1.
const STORES: u64 = 205;

// Where recovering is given up, well above n + 1: the output would show it.
const LIMIT: u64 = 8;

// What the blocks are filled with: on the disk, by a commit before the one that is cut, and by that one.
const DISK: u8 = 1;

const SAVED: u8 = 2;

const NEW: u8 = 3;

// How the three blocks are read after the recoveries.
#[derive(Clone, Copy, PartialEq, Eq)]
enum Blocks {
    New,
    Old,
    Torn,
}

impl fmt::Display for Blocks {
    fn fmt<W: fmt::Write>(&self, f: &mut fmt::Formatter<W>) -> fmt::Result {
        match self {
            Blocks::New => write!(f, "new"),
            Blocks::Old => write!(f, "old"),
            Blocks::Torn => write!(f, "torn"),
        }
    }
}

// What one allowance came to: whether the commit was done, the recoveries up to the one that answered done, the stores that they made together, and
// the blocks.
#[derive(Clone, Copy, PartialEq, Eq)]
struct Seen {
    done: bool,
    steps: u64,
    stores: u64,
    blocks: Blocks,
}

impl fmt::Display for Seen {
    fn fmt<W: fmt::Write>(&self, f: &mut fmt::Formatter<W>) -> fmt::Result {
        let commit = if self.done { "done" } else { "cut" };
        write!(f, "{commit},{},{},{}", self.steps, self.stores, self.blocks)
    }
}

// Over all allowances: the commits that were cut, the most steps and the most stores after one, and how often the blocks were torn.
#[derive(Clone, Copy)]
struct Tally {
    cuts: u64,
    steps: u64,
    stores: u64,
    torn: u64,
}

impl fmt::Display for Tally {
    fn fmt<W: fmt::Write>(&self, f: &mut fmt::Formatter<W>) -> fmt::Result {
        write!(
            f,
            "cuts {}, most steps {}, most stores {}, torn {}",
            self.cuts, self.steps, self.stores, self.torn
        )
    }
}

// The map that the card gives, as a station makes it when it starts.
fn made(card: &[u8]) -> Map {
    match recovery::make_map(card) {
        Mapped::Is(m) => m,
        Mapped::Refused(_) => Map { low: 0, high: 0 },
    }
}

fn save(card: &mut [u8], numbers: &[u64], bytes: &[u8], allowance: u64) -> Stored {
    let map = made(card);
    commit::commit(card, map, numbers, bytes, &[0; 64], allowance)
}

// A fresh card, and where block 1 is not to be as on the disk it saved, so modified, and block 2 loaded, so clean.
fn prepare(card: &mut [u8], disk: &[u8], first: u8) {
    format::format(9, 8, 8, 16, card);
    if first != DISK {
        let s = save(card, &[1], &[first; 512], AMPLE);
        let mut fresh = recency::ascend();
        transfer::load(card, disk, s.map, &mut fresh.order, 2, &[0; 64], AMPLE);
    }
}

// The commit of the three blocks: whether it was done.
fn save_new(card: &mut [u8], allowance: u64) -> bool {
    let s = save(card, &[1, 2, 3], &[NEW; 1536], allowance);
    matches!(s.answer, Answer::Done(_))
}

// Starts until a recovery answers done: the map is made anew, and the card recovered with an allowance of one store, which a cut recovery has used.
// Tells the recoveries and their stores.
fn recover_until_done(card: &mut [u8]) -> (u64, u64) {
    let mut stores = 0;
    for step in 1..LIMIT + 1 {
        let map = made(card);
        match recovery::recover(card, map, 1).answer {
            Answer::Done(n) => return (step, stores + n),
            Answer::Cut => stores += 1,
            Answer::Refused(_) => {}
        }
    }
    (LIMIT, stores)
}

// Whether block b is read as filled with x. A refused read, as of a card that is not settled, leaves zeros, which no block is filled with.
fn holds(card: &[u8], disk: &[u8], b: u64, x: u8) -> bool {
    let mut out = [0u8; 512];
    lookup::read(card, disk, b, &mut out);
    out == [x; 512]
}

// Whether block 1 is read as filled with `first`, and blocks 2 and 3 as filled with x.
fn holds_all(card: &[u8], disk: &[u8], first: u8, x: u8) -> bool {
    holds(card, disk, 1, first) && holds(card, disk, 2, x) && holds(card, disk, 3, x)
}

// All new where the commit was done, all old where it was cut.
fn read_blocks(card: &[u8], disk: &[u8], first: u8, done: bool) -> Blocks {
    if done && holds_all(card, disk, NEW, NEW) {
        Blocks::New
    } else if !done && holds_all(card, disk, first, DISK) {
        Blocks::Old
    } else {
        Blocks::Torn
    }
}

// One run: a prepared card, the commit under the allowance, the recoveries, and what is read then.
fn run(first: u8, allowance: u64) -> Seen {
    let mut card = [0u8; 4416];
    let disk = [DISK; 8192];
    prepare(&mut card, &disk, first);
    let done = save_new(&mut card, allowance);
    let (steps, stores) = recover_until_done(&mut card);
    Seen {
        done,
        steps,
        stores,
        blocks: read_blocks(&card, &disk, first, done),
    }
}

// Every allowance, from none of the stores to all of them: a line for each range of neighbours that came to the same.
fn sweep(rt: &impl Print, first: u8) -> io::Result<Tally> {
    let mut from = 0;
    let mut seen = run(first, 0);
    let mut t = Tally {
        cuts: u64::from(!seen.done),
        steps: seen.steps,
        stores: seen.stores,
        torn: u64::from(seen.blocks == Blocks::Torn),
    };
    for a in 1..STORES + 1 {
        let s = run(first, a);
        if s != seen {
            println!(rt; "{from},{},{seen}", a - 1)?;
            from = a;
            seen = s;
        }
        t.cuts += u64::from(!s.done);
        t.torn += u64::from(s.blocks == Blocks::Torn);
        t.steps = t.steps.max(s.steps);
        t.stores = t.stores.max(s.stores);
    }
    println!(rt; "{from},{STORES},{seen}")?;
    Ok(t)
}

fn part(rt: &impl Print, title: &str, first: u8) -> io::Result<()> {
    println!(rt; "-- {title}\nfrom,to,commit,steps,stores,blocks")?;
    let t = sweep(rt, first)?;
    println!(rt; "{t}")
}

fn main(rt: HostRuntime) -> io::Result<()> {
    println!(&rt;
        "commit of n = 3 blocks, allowance 0 to {STORES}, then recoveries with allowance 1 until one is done"
    )?;
    println!(&rt; "steps: these recoveries; stores: theirs together; each at most n + 1")?;
    part(&rt, "blocks 1, 2 and 3 not cached, on a fresh card", DISK)?;
    part(
        &rt,
        "block 1 cached and modified, block 2 cached and clean, block 3 not cached",
        SAVED,
    )
}
