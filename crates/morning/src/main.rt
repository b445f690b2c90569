// A busy morning: a card of four data blocks that is full, saves of two blocks each, without room-making and with it. Each save tells which
// blocks it evicted, in their order; each block's bytes are read again, wherever they lie; and the power fails in the evictions. Blocks of 512
// bytes, sixteen on the disk, which holds ones.
#![tactic(auto)]

use lookup::{Cached, Found};
use protocol::{Answer, Map, Mapped, Stored};
use recency::Recency;
use std::{array, io};

const AMPLE: u64 = u64::MAX;

// The words of a run in which the power fails are not made.
const NONE: [u8; 64] = [0; 64];

fn made(card: &[u8]) -> Map {
    match recovery::make_map(card) {
        Mapped::Is(m) => m,
        Mapped::Refused(_) => Map { low: 0, high: 0 },
    }
}

// The block that entry i caches.
fn block_at(card: &[u8], i: usize) -> Option<u64> {
    match lookup::cached_at(card, i as u64) {
        Cached::Block(b, _) => Some(b),
        _ => None,
    }
}

// The station: the card over its disk, and what is kept beside the card, the map and the table of recency.
#[derive(Drop)]
struct Station {
    card: [u8; 2304],
    disk: [u8; 8192],
    map: Map,
    recency: Recency,
}

impl Station {
    // A fresh card, the map made, the table ascending.
    fn start(&mut self) {
        format::format(9, 8, 4, 16, &mut self.card);
        self.map = made(&self.card);
        self.recency = recency::ascend();
    }

    // Prints the answer; the map to go on with is the one handed on, and made again after a cut.
    fn told(&mut self, rt: &impl Print, s: Stored) -> io::Result<()> {
        println!(rt; " {}", s.answer)?;
        self.map = match s.answer {
            Answer::Cut => made(&self.card),
            _ => s.map,
        };
        Ok(())
    }

    // The blocks that the card has, the most recently used first, and how many data blocks are free.
    fn show(&self, rt: &impl Print) -> io::Result<()> {
        print!(rt; "cached")?;
        for i in &self.recency.order {
            if let Some(b) = block_at(&self.card, usize::from(*i)) {
                print!(rt; " {b}")?;
            }
        }
        println!(rt; ", free {}", freemap::free_count(self.map))
    }

    // Of the blocks that were cached before, by the table of then, those that the disk has now, the least recently used first: they were evicted.
    fn victims(
        &self,
        rt: &impl Print,
        before: &[Option<u64>; 4],
        recency: &Recency,
    ) -> io::Result<()> {
        print!(rt; "evicted")?;
        for i in recency.order.iter().rev() {
            if let Some(Some(b)) = before.get(usize::from(*i)) {
                if let Found::Disk(_, _) = lookup::find(&self.card, &self.disk, *b) {
                    print!(rt; " {b}")?;
                }
            }
        }
        println!(rt; "")
    }

    // Saves blocks a and b, filled with one byte, by document 01's commit.
    fn save(&mut self, rt: &impl Print, a: u64, b: u64, fill: u8) -> io::Result<()> {
        print!(rt; "commit {a} {b} {fill}")?;
        let bytes = [fill; 1024];
        let s = commit::commit(&mut self.card, self.map, &[a, b], &bytes, &NONE, AMPLE);
        self.told(rt, s)
    }

    // Saves them by the room-making commit, and shows which blocks it evicted.
    fn save_in(
        &mut self,
        rt: &impl Print,
        a: u64,
        b: u64,
        fill: u8,
        allowance: u64,
    ) -> io::Result<()> {
        let before: [Option<u64>; 4] = array::from_fn(|i| block_at(&self.card, i));
        let was = self.recency;
        print!(rt; "room-making commit {a} {b} {fill}")?;
        let s = room::commit(
            &mut self.card,
            &mut self.disk,
            self.map,
            &mut self.recency.order,
            &[a, b],
            &[fill; 1024],
            &NONE,
            allowance,
        );
        self.told(rt, s)?;
        self.victims(rt, &before, &was)
    }

    fn recover(&mut self, rt: &impl Print) -> io::Result<()> {
        print!(rt; "recover")?;
        let s = recovery::recover(&mut self.card, self.map, AMPLE);
        self.told(rt, s)
    }

    fn load(&mut self, rt: &impl Print, b: u64) -> io::Result<()> {
        print!(rt; "load {b}")?;
        let s = transfer::load(
            &mut self.card,
            &self.disk,
            self.map,
            &mut self.recency.order,
            b,
            &NONE,
            AMPLE,
        );
        self.told(rt, s)
    }

    fn evict(&mut self, rt: &impl Print, b: u64) -> io::Result<()> {
        print!(rt; "evict {b}")?;
        let s = transfer::evict(&mut self.card, &mut self.disk, self.map, b, &NONE, AMPLE);
        self.told(rt, s)
    }

    // Reads a block, as a use of it: who held it, and its first and last byte.
    fn read(&mut self, rt: &impl Print, b: u64) -> io::Result<()> {
        let mut out = [0u8; 512];
        let held = lookup::read_recent(
            &self.card,
            &self.disk,
            &mut self.recency.order,
            b,
            &mut out,
        );
        println!(rt; "read {b} {held} {} {}", out[0], out[511])
    }
}

// The third save finds no room, and its blocks are still those of the disk.
fn without(rt: &impl Print, s: &mut Station) -> io::Result<()> {
    println!(rt; "-- without room-making")?;
    s.start();
    s.save(rt, 1, 2, 11)?;
    s.save(rt, 3, 4, 12)?;
    s.save(rt, 5, 6, 13)?;
    s.show(rt)?;
    s.read(rt, 5)
}

// The same saves up to the full card.
fn fill(rt: &impl Print, s: &mut Station) -> io::Result<()> {
    println!(rt; "-- with room-making")?;
    s.start();
    s.save_in(rt, 1, 2, 11, AMPLE)?;
    s.save_in(rt, 3, 4, 12, AMPLE)?;
    s.show(rt)
}

// The third one evicts the two blocks that were used the longest time ago, and they are read from the disk as they were saved.
fn third(rt: &impl Print, s: &mut Station) -> io::Result<()> {
    s.save_in(rt, 5, 6, 13, AMPLE)?;
    s.show(rt)?;
    s.read(rt, 1)?;
    s.read(rt, 2)?;
    s.read(rt, 5)
}

// A read makes block 3 the most recent one, so that 4 goes before it.
fn by_read(rt: &impl Print, s: &mut Station) -> io::Result<()> {
    println!(rt; "-- by use")?;
    s.read(rt, 3)?;
    s.show(rt)?;
    s.save_in(rt, 7, 8, 14, AMPLE)?;
    s.show(rt)
}

// A load makes no room. What it loads is clean, and goes without a write.
fn by_load(rt: &impl Print, s: &mut Station) -> io::Result<()> {
    s.load(rt, 9)?;
    s.evict(rt, 8)?;
    s.load(rt, 9)?;
    s.show(rt)
}

// The blocks of a transaction stay, though one is the least recently used; of the others a modified and a clean one go. The next save finds room.
fn own(rt: &impl Print, s: &mut Station) -> io::Result<()> {
    s.save_in(rt, 5, 7, 15, AMPLE)?;
    s.show(rt)?;
    s.save_in(rt, 1, 2, 16, AMPLE)?;
    s.show(rt)
}

// The power fails in a save: once it is back the card is recovered.
fn cut_at(rt: &impl Print, s: &mut Station, allowance: u64) -> io::Result<()> {
    s.save_in(rt, 3, 10, 17, allowance)?;
    s.recover(rt)?;
    s.show(rt)
}

// Between a block's sector and its entry, and between two evictions: nothing is lost. Between the evictions and the first block, and at the
// commit's last store.
fn cuts(rt: &impl Print, s: &mut Station) -> io::Result<()> {
    println!(rt; "-- power cuts")?;
    for allowance in [1, 2, 2, 136] {
        cut_at(rt, s, allowance)?;
    }
    Ok(())
}

// The same save, made.
fn again(rt: &impl Print, s: &mut Station) -> io::Result<()> {
    for b in [5, 7, 3] {
        s.read(rt, b)?;
    }
    s.save_in(rt, 3, 10, 17, AMPLE)?;
    s.show(rt)
}

fn evening(rt: &impl Print, s: &mut Station) -> io::Result<()> {
    println!(rt; "-- in the evening")?;
    for b in [1, 3, 4, 6, 8, 9] {
        s.read(rt, b)?;
    }
    Ok(())
}

// A table with a number twice.
fn wrong(rt: &impl Print, s: &mut Station) -> io::Result<()> {
    s.recency.order[127] = s.recency.order[0];
    s.read(rt, 2)?;
    s.save_in(rt, 1, 2, 18, AMPLE)
}

fn main(rt: HostRuntime) -> io::Result<()> {
    let mut s = Station {
        card: [0; 2304],
        disk: [1; 8192],
        map: Map { low: 0, high: 0 },
        recency: recency::ascend(),
    };
    without(&rt, &mut s)?;
    fill(&rt, &mut s)?;
    third(&rt, &mut s)?;
    by_read(&rt, &mut s)?;
    by_load(&rt, &mut s)?;
    own(&rt, &mut s)?;
    cuts(&rt, &mut s)?;
    again(&rt, &mut s)?;
    evening(&rt, &mut s)?;
    wrong(&rt, &mut s)
}
