// Recovery: takes back what a cut left half made, store by store, under an allowance of its own.
#![tactic(auto)]

ghost use Rattle.std.specs.Prelude.{◌≡◌, true, false, List, ℕ, ◌≤◌, ◌<◌, length};
ghost use Rattle.numbers.specs.Bytes.{bytes_be, part, Bytes};
ghost use Rattle.protocol.specs.Layout.{good_geometry};
ghost use Rattle.protocol.specs.Entry.{FRESH as NO_BLOCK, undone_flags, undone, entry_at, entry_bytes};
ghost use Rattle.protocol.specs.Ring.{head_of};
ghost use Rattle.protocol.specs.Check.{good_entry_at, entries_fit};
ghost use Rattle.protocol.specs.Store.{tail_store};
ghost use Rattle.protocol.specs.Map.{made_map};
ghost use Rattle.protocol.specs.Recover.{if_changing, recover_runs};
ghost use Rattle.ring.specs.Fitted.{Fitted, WindowOf};
ghost use Rattle.recovery.specs.Step.{step_runs, step_run, step_stores, undoes, spelled_stores, UndoneBy, Listed, Examined};
ghost use Rattle.recovery.specs.Went.{Went, Recovered};
ghost use Rattle.recovery.specs.Blocks.{noted, BlocksNoted};

use protocol::{Answer, Entry, FRESH, Geometry, Map, Mapped, Stored};
use ring::Window;
use stores::Run;

// How far recovery has come: the stores that its list has so far, and what is left of the credit.
#[derive(Clone, Copy)]
pub struct Progress {
    pub count: u64,
    pub left: u64,
}

// Modified or clean as P tells; a version 1 card does not say, so there it is modified.
fn undone_flags(version: u64, e: Entry) -> u8
    ensures { result ≡ undone_flags version e }
{
    if version != 2 {
        return 0x82;
    }
    if codec::was_modified(e) { 0x86 } else { 0x80 }
}

// Zeros where there was no block before, else the saved block as both current and previous: a second recovery finds it again.
fn undone_of(version: u64, e: Entry) -> Entry
    ensures { result ≡ undone version e }
{
    if e.previous == FRESH {
        return Entry {
            flags: 0,
            number: 0,
            previous: 0,
            current: 0,
        };
    }
    Entry {
        flags: undone_flags(version, e),
        number: e.number,
        previous: e.previous,
        current: e.previous,
    }
}

// What recovery's list has at one place: nothing, the entry there as it becomes, or Tail's new value.
#[derive(Clone, Copy)]
pub enum Step {
    Nothing,
    Undo(Entry),
    Tail(u64),
}

// What becomes of entry i: nothing where it is not undoable. A store that would change no byte is left out, which the fields tell as well
// as the bytes.
fn undo_step(g: Geometry, card: &[u8], w: Window, i: usize) -> Step
    requires { Fitted g card.now × WindowOf g card.now w × (i < g.blocks) }
    ensures { UndoneBy g card.now i result }
{
    let e = checks::entry_of(g, card, i);
    if !checks::undoable(g, card, w, e) {
        return Step::Nothing;
    }
    let u = undone_of(ring::version_of(card), e);
    if e == u {
        return Step::Nothing;
    }
    Step::Undo(u)
}

// Tail set to Head, which empties the window.
fn tail_step(g: Geometry, w: Window, i: usize) -> Step
    ensures { ((c : List ℕ) → Bytes c → 128 ≤ length c → WindowOf g c w → step_runs g i result ≡ if_changing c (tail_store (head_of c))) × (undoes result ≡ false) }
{
    if w.tail == w.head {
        Step::Nothing
    } else {
        Step::Tail(w.head)
    }
}

// What recovery's list has at place i: entry i undone, and at place N, the last, Tail's store. Whoever makes these steps in order, and no
// others, makes recovery's stores.
pub fn step_at(g: Geometry, card: &[u8], w: Window, i: usize) -> Step
    requires { Fitted g card.now × WindowOf g card.now w }
    ensures { Listed g card.now i result }
{
    if i < g.blocks as usize {
        undo_step(g, card, w, i)
    } else {
        tail_step(g, w, i)
    }
}

// The step u of place i as a run of a call's list.
pub fn run_of(g: Geometry, i: usize, u: Step) -> Run
    requires { (good_geometry g ≡ true) × (undoes u ≡ true → i < g.blocks) }
    ensures { result ≡ step_run g i u }
{
    match u {
        Step::Nothing => Run::Nothing,
        Step::Undo(e) => Run::Entry(stores::entry_place(g, i), e),
        Step::Tail(v) => Run::Word(72, v),
    }
}

// Makes the step u of place i, where it is one and the credit lets it happen: the run that `run_of` tells, without a call where there is none.
pub fn make_step(g: Geometry, card: &mut [u8], i: usize, u: Step, left: u64) -> Progress
    requires { Fitted g card.old × (undoes u ≡ true → i < g.blocks) }
    ensures { Went (step_runs g i u) left card.old card.new result × (result.count ≤ 1) }
{
    match u {
        Step::Nothing => Progress { count: 0, left },
        Step::Undo(e) => Progress {
            count: 1,
            left: stores::make_entry(card, stores::entry_place(g, i), e, left),
        },
        Step::Tail(v) => Progress {
            count: 1,
            left: stores::make_word(card, 72, v, left),
        },
    }
}

// A step's store as bytes: where they go, how many of the sixteen they are.
#[derive(Clone, Copy)]
pub struct Spelled {
    pub place: u32,
    pub size: usize,
    pub bytes: [u8; 16],
}

fn entry_bytes(e: Entry) -> [u8; 16]
    ensures { part result 0 16 ≡ entry_bytes e }
{
    let mut bytes = [0u8; 16];
    codec::put_entry(&mut bytes, 0, e);
    bytes
}

fn word_bytes(v: u64) -> [u8; 16]
    ensures { part result 0 8 ≡ bytes_be 8 v }
{
    let mut bytes = [0u8; 16];
    numbers::put(&mut bytes, 0, 8, v);
    bytes
}

// The step u of place i, spelled for whoever stores it elsewhere than in memory.
pub fn spell(g: Geometry, i: usize, u: Step) -> Spelled
    requires { (good_geometry g ≡ true) × (undoes u ≡ true → i < g.blocks) }
    ensures { (spelled_stores result ≡ step_stores g i u) × (result.size ≤ 16) }
{
    match u {
        Step::Nothing => Spelled {
            place: 0,
            size: 0,
            bytes: [0; 16],
        },
        Step::Undo(e) => Spelled {
            place: stores::entry_place(g, i) as u32,
            size: 16,
            bytes: entry_bytes(e),
        },
        Step::Tail(v) => Spelled {
            place: 72,
            size: 8,
            bytes: word_bytes(v),
        },
    }
}

// The data blocks that the list moves: those that undone entries give up, and those that they take.
#[derive(Clone, Copy)]
pub struct Moved {
    pub gone: Map,
    pub come: Map,
}

// Notes the blocks of an entry that is to be undone.
fn note_entry(e: Entry, so: Moved) -> Moved
    requires { (e.current < 128) × ((e.previous ≡ NO_BLOCK → ⊥) → e.previous < 128) }
    ensures { result ≡ noted true e so }
{
    let gone = freemap::with(so.gone, e.current as usize);
    if e.previous == FRESH {
        return Moved {
            gone,
            come: so.come,
        };
    }
    Moved {
        gone,
        come: freemap::with(so.come, e.previous as usize),
    }
}

// Notes the blocks of the step u of place i, which is still to be made.
fn note_step(g: Geometry, card: &[u8], i: usize, u: Step, so: Moved) -> Moved
    requires { Fitted g card.now × (undoes u ≡ true → i < g.blocks) × (i < g.blocks → good_entry_at g card.now i ≡ true) }
    ensures { result ≡ noted (undoes u) (entry_at g card.now i) so }
{
    match u {
        Step::Undo(_) => note_entry(checks::entry_of(g, card, i), so),
        _ => so,
    }
}

// What the whole list came to.
#[derive(Clone, Copy)]
pub struct Made {
    pub progress: Progress,
    pub moved: Moved,
}

// Makes the whole list. A store touches its own entry alone, so the others and the window are read as they stood at the start. A block may
// go from one entry to another, so what is given up and what is taken are kept apart.
fn make_list(g: Geometry, card: &mut [u8], w: Window, credit: u64) -> Made
    requires { Fitted g card.old × WindowOf g card.old w × (entries_fit g card.old ≡ true) }
    ensures { Went (recover_runs g card.old) credit card.old card.new result.progress × BlocksNoted g card.old g.blocks result.moved }
{
    let mut count: u64 = 0;
    let mut left = credit;
    let mut moved = Moved {
        gone: Map { low: 0, high: 0 },
        come: Map { low: 0, high: 0 },
    };
    for i in 0..g.blocks as usize + 1 {
        let u = step_at(g, card, w, i);
        moved = note_step(g, card, i, u, moved);
        let p = make_step(g, card, i, u, left);
        count += p.count;
        left = p.left;
    }
    Made {
        progress: Progress { count, left },
        moved,
    }
}

// What recovery finds first: its refusal, and of a card that is not refused the geometry, the window and the map.
#[derive(Clone, Copy)]
pub struct Checked {
    pub refusal: u8,
    pub geometry: Geometry,
    pub window: Window,
    pub map: Map,
}

fn refused(refusal: u8) -> Checked
    ensures { result.refusal ≡ refusal }
{
    Checked {
        refusal,
        geometry: Geometry {
            k: 0,
            slots: 0,
            blocks: 0,
            disk: 0,
        },
        window: Window {
            tail: 0,
            count: 0,
            head: 0,
        },
        map: Map { low: 0, high: 0 },
    }
}

// 1, 2 and 4 to 6: recovery takes cards of both versions, unsettled ones too, and no disk.
pub fn examine(card: &[u8]) -> Checked
    ensures { Examined card.now result }
{
    let f = ring::fit_of(card, 1, 2);
    if f.refusal != 0 {
        return refused(f.refusal);
    }
    let mut index = [0u8; 640];
    let v = checks::inspect(f, card, &mut index);
    if v.refusal != 0 {
        return refused(v.refusal);
    }
    let geometry = f.geometry;
    Checked {
        refusal: 0,
        geometry,
        window: ring::window_of(geometry, card),
        map: v.map,
    }
}

// The map of the card's data blocks, settled or not, of either version: what a station makes when it starts. Refused with 1, 2 and 4 to 6.
pub fn make_map(card: &[u8]) -> Mapped
    ensures { result ≡ made_map card.now }
{
    let e = examine(card);
    if e.refusal != 0 {
        return Mapped::Refused(e.refusal);
    }
    Mapped::Is(e.map)
}

// Undoes what a cut left half made, by the rule of the card's version: each undoable entry becomes what it was, and Tail is set to Head. The
// service desk's undo of a half-made commit is this same call.
pub fn recover(card: &mut [u8], map: Map, allowance: u64) -> Stored
    ensures { Recovered allowance card.old map card.new result }
{
    let s = examine(card);
    if s.refusal != 0 {
        return Stored {
            answer: Answer::Refused(s.refusal),
            map,
        };
    }
    if map != s.map {
        return Stored {
            answer: Answer::Refused(15),
            map,
        };
    }
    let credit = stores::credit(129, allowance);
    let r = make_list(s.geometry, card, s.window, credit);
    let count = r.progress.count;
    if allowance < count {
        return Stored {
            answer: Answer::Cut,
            map,
        };
    }
    Stored {
        answer: Answer::Done(count),
        map: freemap::moved(map, r.moved.gone, r.moved.come),
    }
}
