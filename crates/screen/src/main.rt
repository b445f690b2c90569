// A recipe screen: it saves a recipe of three blocks block by block over the recipe's old version, by open, three puts and finish, and the power
// fails at each store. After each cut comes a start, which makes the map and recovers the card, and the three blocks are read: the label is the old
// recipe or the new one, and torn if it were neither. Blocks of 512 bytes, eight slots, eight data blocks, which is room for both versions, and
// sixteen disk blocks, which hold ones.
#![tactic(auto)]

use pending::Save;
use protocol::{Answer, Map, Mapped, Opened, Pending};
use std::{fmt, io};

const AMPLE: u64 = u64::MAX;

// What the recipes' blocks are filled with: in block j it is this byte with j in its low bits, so that no two blocks are alike.
const OLD: u8 = 0x10;

const NEW: u8 = 0x20;

fn filling(recipe: u8, j: u8) -> u8 {
    recipe | j
}

fn made(card: &[u8]) -> Map {
    match recovery::make_map(card) {
        Mapped::Is(m) => m,
        Mapped::Refused(_) => Map { low: 0, high: 0 },
    }
}

// A call of the new recipe's save: the put of one of its three blocks, or the finish that comes after them.
#[derive(Clone, Copy)]
enum Call {
    Put(u8),
    Finish,
}

impl Call {
    // One more than the puts that come before it.
    fn number(self) -> u8 {
        match self {
            Call::Put(j) => j,
            Call::Finish => 4,
        }
    }
}

impl fmt::Display for Call {
    fn fmt<W: fmt::Write>(&self, f: &mut fmt::Formatter<W>) -> fmt::Result {
        match self {
            Call::Put(j) => write!(f, "put {j}"),
            Call::Finish => write!(f, "finish"),
        }
    }
}

// What the label shows: one of the recipes whole, or neither.
#[derive(Clone, Copy)]
enum Label {
    Old,
    New,
    Torn,
}

impl fmt::Display for Label {
    fn fmt<W: fmt::Write>(&self, f: &mut fmt::Formatter<W>) -> fmt::Result {
        match self {
            Label::Old => write!(f, "label old"),
            Label::New => write!(f, "label new"),
            Label::Torn => write!(f, "label torn"),
        }
    }
}

// The screen: the card over its disk, and what it goes on with, the map and the save that is pending.
#[derive(Drop)]
struct Screen {
    card: [u8; 4416],
    disk: [u8; 8192],
    map: Map,
    save: Save,
}

impl Screen {
    // A card without a byte of an earlier run.
    fn new() -> Screen {
        Screen {
            card: [0; 4416],
            disk: [1; 8192],
            map: Map { low: 0, high: 0 },
            save: Save {
                held: Pending { tail: 0, count: 0 },
            },
        }
    }

    // The old recipe, by one commit.
    fn commit_old(&mut self) -> Answer {
        let mut bytes = [filling(OLD, 1); 1536];
        bytes[512..1024].fill(filling(OLD, 2));
        bytes[1024..].fill(filling(OLD, 3));
        commit::commit(
            &mut self.card,
            self.map,
            &[1, 2, 3],
            &bytes,
            &[0; 64],
            AMPLE,
        )
        .answer
    }

    // Opens a save. An open makes no store.
    fn open(&mut self) -> Answer {
        match Save::open(&self.card) {
            Opened::Is(held) => {
                self.save = Save { held };
                Answer::Done(0)
            }
            Opened::Refused(r) => Answer::Refused(r),
        }
    }

    // A call under an allowance, with all words of a cut block's run made (choice 1) or none of them (0). Done hands on the next record and the map;
    // a cut or a refused call hands back those that it got.
    fn call(&mut self, c: Call, choice: u8, allowance: u64) -> Answer {
        match c {
            Call::Put(j) => {
                let p = self.save.put(
                    &mut self.card,
                    self.map,
                    u64::from(j),
                    &[filling(NEW, j); 512],
                    &[choice; 64],
                    allowance,
                );
                self.map = p.map;
                self.save = p.save;
                p.answer
            }
            Call::Finish => {
                let s = self.save.finish(&mut self.card, self.map, allowance);
                self.map = s.map;
                s.answer
            }
        }
    }

    // The card anew, with the old recipe, the save opened on it and the calls before c made. In place, since a screen by value costs a sweep
    // several copies of its arrays for each cut; no call here writes the disk.
    fn up_to(&mut self, c: Call) {
        self.card.fill(0);
        format::format(9, 8, 8, 16, &mut self.card);
        self.map = made(&self.card);
        self.commit_old();
        self.map = made(&self.card);
        self.open();
        for j in 1..c.number() {
            self.call(Call::Put(j), 0, AMPLE);
        }
    }

    // The power is back: the map is made, and the card recovered.
    fn start(&mut self) -> Answer {
        let map = made(&self.card);
        recovery::recover(&mut self.card, map, AMPLE).answer
    }

    // Whether the three blocks are read as this recipe's. A refused read leaves zeros, which are no recipe's.
    fn holds(&self, recipe: u8) -> bool {
        for j in 1..4 {
            let mut out = [0u8; 512];
            lookup::read(&self.card, &self.disk, u64::from(j), &mut out);
            if out != [filling(recipe, j); 512] {
                return false;
            }
        }
        true
    }

    fn label(&self) -> Label {
        if self.holds(OLD) {
            Label::Old
        } else if self.holds(NEW) {
            Label::New
        } else {
            Label::Torn
        }
    }
}

// The stores of call c where it is not cut.
fn stores_of(c: Call) -> u64 {
    let mut s = Screen::new();
    s.up_to(c);
    match s.call(c, 0, AMPLE) {
        Answer::Done(n) => n,
        _ => 0,
    }
}

// How often a cut was answered so, and each label was seen after it.
#[derive(Clone, Copy)]
struct Tally {
    cuts: u64,
    old: u64,
    new: u64,
    torn: u64,
}

impl fmt::Display for Tally {
    fn fmt<W: fmt::Write>(&self, f: &mut fmt::Formatter<W>) -> fmt::Result {
        write!(
            f,
            "cuts {}, old {}, new {}, torn {}",
            self.cuts, self.old, self.new, self.torn
        )
    }
}

// Cuts call c at each of its stores: with an allowance of none, of one, and so on to all but the last. After each comes a start.
fn sweep(c: Call, choice: u8, stores: u64) -> Tally {
    let mut t = Tally {
        cuts: 0,
        old: 0,
        new: 0,
        torn: 0,
    };
    let mut s = Screen::new();
    for allowance in 0..stores {
        s.up_to(c);
        let answer = s.call(c, choice, allowance);
        s.start();
        t.cuts += u64::from(matches!(answer, Answer::Cut));
        match s.label() {
            Label::Old => t.old += 1,
            Label::New => t.new += 1,
            Label::Torn => t.torn += 1,
        }
    }
    t
}

fn show_sweep(rt: &impl Print, c: Call, choice: u8) -> io::Result<()> {
    let stores = stores_of(c);
    println!(rt; "{c}: stores {stores}, {}", sweep(c, choice, stores))
}

fn show_record(rt: &impl Print, s: &Screen) -> io::Result<()> {
    let held = s.save.held;
    println!(rt; "record: Tail {}, count {}", held.tail, held.count)
}

fn show_state(rt: &impl Print, s: &Screen) -> io::Result<()> {
    println!(rt; "state {}", lookup::state(&s.card))
}

fn show_open(rt: &impl Print, s: &mut Screen) -> io::Result<()> {
    println!(rt; "open {}", s.open())?;
    show_record(rt, s)
}

fn show_call(rt: &impl Print, s: &mut Screen, c: Call) -> io::Result<()> {
    println!(rt; "{c} {}", s.call(c, 0, AMPLE))
}

fn show_commit(rt: &impl Print, s: &mut Screen) -> io::Result<()> {
    println!(rt; "commit of the old recipe {}", s.commit_old())
}

fn show_start(rt: &impl Print, s: &mut Screen) -> io::Result<()> {
    println!(rt; "recover {}", s.start())?;
    println!(rt; "{}", s.label())
}

fn show_read(rt: &impl Print, s: &Screen) -> io::Result<()> {
    let held = lookup::read(&s.card, &s.disk, 1, &mut [0; 512]);
    println!(rt; "read 1 {held}")
}

// The old recipe on a fresh card.
fn before(rt: &impl Print, s: &mut Screen) -> io::Result<()> {
    println!(rt; "-- the old recipe")?;
    println!(rt; "format {}", format::format(9, 8, 8, 16, &mut s.card))?;
    s.map = made(&s.card);
    show_commit(rt, s)?;
    println!(rt; "{}", s.label())
}

// The new one over it, with the record that each call hands on.
fn puts(rt: &impl Print, s: &mut Screen) -> io::Result<()> {
    println!(rt; "-- the new recipe, block by block")?;
    s.map = made(&s.card);
    show_open(rt, s)?;
    for j in 1..4 {
        show_call(rt, s, Call::Put(j))?;
        show_record(rt, s)?;
    }
    Ok(())
}

fn finished(rt: &impl Print, s: &mut Screen) -> io::Result<()> {
    show_state(rt, s)?;
    show_call(rt, s, Call::Finish)?;
    show_state(rt, s)?;
    println!(rt; "{}", s.label())
}

// A second finish with the same record, and one of a save into which nothing was put.
fn finishes(rt: &impl Print, s: &mut Screen) -> io::Result<()> {
    println!(rt; "-- finished twice, and with nothing put")?;
    show_call(rt, s, Call::Finish)?;
    show_open(rt, s)?;
    show_call(rt, s, Call::Finish)
}

// While a save is pending the calls that need a settled card are refused, and so is a put of a number that the save has. At the end a put with the
// record of a save that the recovery abandoned.
fn refusals(rt: &impl Print) -> io::Result<()> {
    println!(rt; "-- refusals while the save is pending")?;
    let mut s = Screen::new();
    s.up_to(Call::Put(3));
    show_record(rt, &s)?;
    show_commit(rt, &mut s)?;
    show_read(rt, &s)?;
    show_call(rt, &mut s, Call::Put(1))?;
    show_start(rt, &mut s)?;
    show_call(rt, &mut s, Call::Put(3))
}

// Call c cut at this allowance, and made again with the record and the map that it handed back.
fn again(rt: &impl Print, title: &str, c: Call, allowance: u64) -> io::Result<Screen> {
    println!(rt; "-- {title}")?;
    let mut s = Screen::new();
    s.up_to(c);
    println!(rt; "{c} allowance {allowance} {}", s.call(c, 0, allowance))?;
    show_record(rt, &s)?;
    show_call(rt, &mut s, c)?;
    Ok(s)
}

// Up to the end of a block's words the entries and the ring are as before, and the put that is made again is done.
fn put_again(rt: &impl Print, title: &str, allowance: u64) -> io::Result<()> {
    let mut s = again(rt, title, Call::Put(2), allowance)?;
    show_call(rt, &mut s, Call::Put(3))?;
    show_call(rt, &mut s, Call::Finish)?;
    println!(rt; "{}", s.label())
}

// Before its first role switch a finish finds the save as it was.
fn finish_again(rt: &impl Print, title: &str, allowance: u64) -> io::Result<()> {
    let s = again(rt, title, Call::Finish, allowance)?;
    println!(rt; "{}", s.label())
}

// Behind the entry of a put, or behind a role switch, the entries with R do not match the window's numbers, and only a recovery goes on.
fn abandoned(rt: &impl Print, title: &str, c: Call, allowance: u64) -> io::Result<()> {
    let mut s = again(rt, title, c, allowance)?;
    show_start(rt, &mut s)
}

fn cut_puts(rt: &impl Print) -> io::Result<()> {
    put_again(rt, "put 2 cut in its words", 30)?;
    put_again(rt, "put 2 cut before its entry", 64)?;
    abandoned(rt, "put 2 cut behind its entry", Call::Put(2), 65)?;
    abandoned(rt, "put 2 cut before Head's store", Call::Put(2), 66)
}

fn cut_finishes(rt: &impl Print) -> io::Result<()> {
    finish_again(rt, "finish cut before its stores", 0)?;
    abandoned(rt, "finish cut behind a role switch", Call::Finish, 1)?;
    abandoned(rt, "finish cut before Tail's store", Call::Finish, 3)
}

// The finish has no run, and takes no choice.
fn sweeps(rt: &impl Print) -> io::Result<()> {
    println!(rt; "-- each call cut at each store, no word of a cut run made")?;
    for c in [Call::Put(1), Call::Put(2), Call::Put(3), Call::Finish] {
        show_sweep(rt, c, 0)?;
    }
    println!(rt; "-- the puts, all words of a cut run made")?;
    for c in [Call::Put(1), Call::Put(2), Call::Put(3)] {
        show_sweep(rt, c, 1)?;
    }
    Ok(())
}

fn uncut(rt: &impl Print) -> io::Result<()> {
    let mut s = Screen::new();
    before(rt, &mut s)?;
    puts(rt, &mut s)?;
    finished(rt, &mut s)?;
    finishes(rt, &mut s)
}

fn main(rt: HostRuntime) -> io::Result<()> {
    uncut(&rt)?;
    refusals(&rt)?;
    cut_puts(&rt)?;
    cut_finishes(&rt)?;
    sweeps(&rt)
}
