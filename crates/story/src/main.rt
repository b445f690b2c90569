// A longer story: saves over each other, cuts at chosen places, also inside a run with some of its stores made, recoveries, loads, evicts and
// refusals, with what each call answers and the first and last byte of the blocks that are read. Blocks of 512 bytes, four on the card, sixteen on the
// disk, which holds ones. The map is made at start, handed on by each call, and made again after a cut.
#![tactic(auto)]

ghost use Rattle.std.specs.Prelude.{◌≤◌, length};

use protocol::{Answer, Map, Mapped, Stored};
use std::io;

const AMPLE: u64 = u64::MAX;

// No store of a run in which the power fails is made.
const NONE: [u8; 64] = [0; 64];

fn made(card: &[u8]) -> Map {
    match recovery::make_map(card) {
        Mapped::Is(m) => m,
        Mapped::Refused(_) => Map { low: 0, high: 0 },
    }
}

// The card over its disk, and the map to go on with.
#[derive(Drop)]
struct Station {
    card: [u8; 2304],
    disk: [u8; 8192],
    map: Map,
}

impl Station {
    // Prints the answer; the map to go on with is made again after a cut.
    fn told(&mut self, rt: &impl Print, s: Stored) -> io::Result<()> {
        println!(rt; " {}", s.answer)?;
        self.map = match s.answer {
            Answer::Cut => made(&self.card),
            _ => s.map,
        };
        Ok(())
    }

    fn free(&self, rt: &impl Print) -> io::Result<()> {
        println!(rt; "free {}", freemap::free_count(self.map))
    }

    fn state(&self, rt: &impl Print) -> io::Result<()> {
        println!(rt; "state {}", lookup::state(&self.card))
    }

    // Saves one or two blocks, filled with one byte.
    fn save(
        &mut self,
        rt: &impl Print,
        numbers: &[u64],
        fill: u8,
        choice: &[u8],
        allowance: u64,
    ) -> io::Result<()>
        requires { length numbers.now ≤ 2 }
    {
        print!(rt; "commit")?;
        for b in numbers {
            print!(rt; " {b}")?;
        }
        print!(rt; " {fill}")?;
        let bytes = [fill; 1024];
        let s = commit::commit(
            &mut self.card,
            self.map,
            numbers,
            &bytes[..512 * numbers.len()],
            choice,
            allowance,
        );
        self.told(rt, s)
    }

    fn recover(&mut self, rt: &impl Print, allowance: u64) -> io::Result<()> {
        print!(rt; "recover")?;
        let s = recovery::recover(&mut self.card, self.map, allowance);
        self.told(rt, s)
    }

    fn evict(&mut self, rt: &impl Print, b: u64, choice: &[u8], allowance: u64) -> io::Result<()> {
        print!(rt; "evict {b}")?;
        let s = transfer::evict(
            &mut self.card,
            &mut self.disk,
            self.map,
            b,
            choice,
            allowance,
        );
        self.told(rt, s)
    }

    fn load(&mut self, rt: &impl Print, b: u64, choice: &[u8], allowance: u64) -> io::Result<()> {
        print!(rt; "load {b}")?;
        let mut fresh = recency::ascend();
        let s = transfer::load(
            &mut self.card,
            &self.disk,
            self.map,
            &mut fresh.order,
            b,
            choice,
            allowance,
        );
        self.told(rt, s)
    }

    // Reads a block: who held it, and its first and last byte.
    fn read(&self, rt: &impl Print, b: u64) -> io::Result<()> {
        let mut out = [0u8; 512];
        let held = lookup::read(&self.card, &self.disk, b, &mut out);
        println!(rt; "read {b} {held} {} {}", out[0], out[511])
    }
}

// A finished save, and one cut between its two blocks.
fn first_part(rt: &impl Print, s: &mut Station) -> io::Result<()> {
    s.map = made(&s.card);
    s.free(rt)?;
    s.save(rt, &[2, 3], 7, &NONE, AMPLE)?;
    s.save(rt, &[2, 3], 8, &NONE, 68)?;
    s.state(rt)?;
    s.read(rt, 2)?;
    s.load(rt, 9, &NONE, AMPLE)
}

// A recovery with a map of zeros, and one with the card's.
fn taken_back(rt: &impl Print, s: &mut Station) -> io::Result<()> {
    let map = s.map;
    s.map = Map { low: 0, high: 0 };
    s.recover(rt, AMPLE)?;
    s.map = map;
    s.recover(rt, AMPLE)?;
    s.read(rt, 2)?;
    s.read(rt, 3)
}

// A save cut at its last role switch, and a recovery cut after its first store.
fn second_part(rt: &impl Print, s: &mut Station) -> io::Result<()> {
    s.save(rt, &[2, 3], 9, &NONE, 136)?;
    s.state(rt)?;
    s.recover(rt, 1)?;
    s.state(rt)
}

fn taken_back_again(rt: &impl Print, s: &mut Station) -> io::Result<()> {
    s.recover(rt, AMPLE)?;
    s.recover(rt, AMPLE)?;
    s.read(rt, 2)?;
    s.save(rt, &[3, 2], 10, &NONE, AMPLE)?;
    s.read(rt, 2)?;
    s.state(rt)
}

// The card fills up.
fn third_part(rt: &impl Print, s: &mut Station) -> io::Result<()> {
    s.save(rt, &[5], 11, &NONE, AMPLE)?;
    s.free(rt)?;
    s.save(rt, &[6, 7], 12, &NONE, AMPLE)
}

// An evict makes room.
fn room(rt: &impl Print, s: &mut Station) -> io::Result<()> {
    s.evict(rt, 2, &NONE, 1)?;
    s.read(rt, 2)?;
    s.evict(rt, 2, &NONE, AMPLE)?;
    s.free(rt)?;
    s.read(rt, 2)
}

// A load cut before its entry, one that finishes, one of a cached block, and one with the map of before.
fn fourth_part(rt: &impl Print, s: &mut Station) -> io::Result<()> {
    s.load(rt, 2, &NONE, 64)?;
    let before = s.map;
    s.load(rt, 2, &NONE, AMPLE)?;
    s.load(rt, 2, &NONE, AMPLE)?;
    let map = s.map;
    s.map = before;
    s.load(rt, 2, &NONE, AMPLE)?;
    s.map = map;
    Ok(())
}

fn drained(rt: &impl Print, s: &mut Station) -> io::Result<()> {
    s.evict(rt, 9, &NONE, AMPLE)?;
    s.evict(rt, 2, &NONE, AMPLE)
}

fn refusals(rt: &impl Print, s: &mut Station) -> io::Result<()> {
    s.save(rt, &[4, 4], 13, &NONE, AMPLE)?;
    s.save(rt, &[4, 16], 13, &NONE, AMPLE)?;
    s.save(rt, &[5, 14], 13, &NONE, 0)
}

fn last_part(rt: &impl Print, s: &mut Station) -> io::Result<()> {
    s.read(rt, 5)?;
    s.recover(rt, AMPLE)?;
    s.save(rt, &[5, 14], 13, &NONE, AMPLE)?;
    s.free(rt)?;
    s.read(rt, 5)?;
    s.read(rt, 14)?;
    s.read(rt, 15)?;
    s.read(rt, 16)?;
    s.state(rt)
}

// A load of which all words are made and no entry, and an evict whose one sector is made though no store is allowed: both blocks are read as before.
fn chosen_moves(rt: &impl Print, s: &mut Station) -> io::Result<()> {
    s.load(rt, 9, &[1; 64], 0)?;
    s.read(rt, 9)?;
    s.evict(rt, 5, &[1; 64], 0)?;
    s.read(rt, 5)?;
    s.evict(rt, 5, &NONE, AMPLE)?;
    s.read(rt, 5)
}

// A save cut in its second block's words, of which only the last is made, and taken back.
fn fifth_part(rt: &impl Print, s: &mut Station) -> io::Result<()> {
    let mut last = NONE;
    last[63] = 1;
    s.save(rt, &[3, 14], 15, &last, 68)?;
    s.state(rt)?;
    s.recover(rt, AMPLE)?;
    s.read(rt, 3)?;
    s.read(rt, 14)
}

// Choices that do not fit.
fn wrong_choices(rt: &impl Print, s: &mut Station) -> io::Result<()> {
    s.save(rt, &[3, 14], 15, &[1; 63], AMPLE)?;
    s.save(rt, &[3, 14], 15, &[2; 64], AMPLE)
}

fn first_half(rt: &impl Print, s: &mut Station) -> io::Result<()> {
    first_part(rt, s)?;
    taken_back(rt, s)?;
    second_part(rt, s)?;
    taken_back_again(rt, s)
}

fn second_half(rt: &impl Print, s: &mut Station) -> io::Result<()> {
    third_part(rt, s)?;
    room(rt, s)?;
    fourth_part(rt, s)?;
    drained(rt, s)
}

fn ending(rt: &impl Print, s: &mut Station) -> io::Result<()> {
    refusals(rt, s)?;
    last_part(rt, s)?;
    chosen_moves(rt, s)?;
    fifth_part(rt, s)?;
    wrong_choices(rt, s)?;
    s.free(rt)
}

fn main(rt: HostRuntime) -> io::Result<()> {
    let mut s = Station {
        card: [0; 2304],
        disk: [1; 8192],
        map: Map { low: 0, high: 0 },
    };
    println!(&rt; "format {}", format::format(9, 8, 4, 16, &mut s.card))?;
    first_half(&rt, &mut s)?;
    second_half(&rt, &mut s)?;
    ending(&rt, &mut s)
}
