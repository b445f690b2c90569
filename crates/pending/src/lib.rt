// A save block by block: opened on a settled card, put one block after the other, and finished. Between the calls the station holds the record.
#![tactic(auto)]

ghost use Rattle.std.specs.Prelude.{◌≡◌, true, ◌&&◌, List, ℕ, ◌+◌, ◌<◌, eqb, length, get_or};
ghost use Rattle.protocol.specs.Below.{each_below};
ghost use Rattle.protocol.specs.Entry.{switched};
ghost use Rattle.protocol.specs.Store.{Medium};
ghost use Rattle.protocol.specs.Layout.{good_geometry};
ghost use Rattle.protocol.specs.Pending.{opened, next_record};
ghost use Rattle.ring.specs.Fitted.{Fitted, WindowOf};
ghost use Rattle.checks.specs.Chain.{Blank};
ghost use Rattle.stores.specs.Did.{Did};
ghost use Rattle.pending.specs.Standing.{Met, Findable};
ghost use Rattle.pending.specs.Putting.{own_refusal, Asked, Puttable, Logged, PutBlock};
ghost use Rattle.pending.specs.Finishing.{switch_at, Places, Finishable, Finished};

use plan::EMPTY;
use protocol::{Answer, Geometry, Map, Opened, Pending, Stored};
use ring::Window;

// A pending save, by the record that the station holds.
#[derive(Clone, Copy)]
pub struct Save {
    pub held: Pending,
}

// What a put hands back: its answer, the map, and the record of the save, the next one where the put is done.
#[derive(Clone, Copy)]
pub struct Put {
    pub answer: Answer,
    pub map: Map,
    pub save: Save,
}

// What put and finish go on from: their refusal, and where there is none the card's geometry and window, how many of its data blocks are free, and the
// map of its current blocks alone.
#[derive(Clone, Copy)]
pub struct Standing {
    pub refusal: u8,
    pub geometry: Geometry,
    pub window: Window,
    pub free: u64,
    pub currents: Map,
}

fn stopped(g: Geometry, refusal: u8) -> Standing
    ensures { result.refusal ≡ refusal }
{
    Standing {
        refusal,
        geometry: g,
        window: Window {
            tail: 0,
            count: 0,
            head: 0,
        },
        free: 0,
        currents: Map { low: 0, high: 0 },
    }
}

// Whether the window has the record's Tail and count, told whether the entries with R match its numbers.
fn is_pending(held: Pending, w: Window, matched: bool) -> bool
    ensures { result ≡ eqb w.tail held.tail && (eqb w.count held.count && matched) }
{
    (w.tail == held.tail) & ((w.count == held.count) & matched)
}

// 1, 2, 4 to 6, 18 in place of 7, and 15; and the index of the card's numbers.
fn meet(held: Pending, card: &[u8], map: Map, index: &mut [u8; 640]) -> Standing
    requires { Blank index.old }
    ensures { Met card.now map held index.new result }
{
    let f = ring::fit_of(card, 2, 2);
    let g = f.geometry;
    if f.refusal != 0 {
        return stopped(g, f.refusal);
    }
    let v = checks::inspect(f, card, index);
    if v.refusal != 0 {
        return stopped(g, v.refusal);
    }
    let w = ring::window_of(g, card);
    if !is_pending(held, w, v.matched) {
        return stopped(g, 18);
    }
    if map != v.map {
        return stopped(g, 15);
    }
    Standing {
        refusal: 0,
        geometry: g,
        window: w,
        free: v.free,
        currents: v.currents,
    }
}

// 8, 9, 17 and 10, of `size` bytes of data and a choice of this room.
fn own_refusal(g: Geometry, count: u64, size: usize, room: usize, block: u64) -> u8
    requires { good_geometry g ≡ true }
    ensures { result ≡ own_refusal g count size room block }
{
    if count == g.slots - 1 {
        return 8;
    }
    let b = codec::block_size(g);
    if size as u64 != b {
        return 9;
    }
    if (room as u64) < b / 8 {
        return 17;
    }
    if g.disk <= block {
        return 10;
    }
    0
}

// All refusals of a put.
fn ask(
    held: Pending,
    card: &[u8],
    map: Map,
    block: u64,
    size: usize,
    room: usize,
    index: &mut [u8; 640],
) -> Standing
    requires { Blank index.old }
    ensures { Asked card.now map held block size room index.new result }
{
    let s = meet(held, card, map, index);
    if s.refusal != 0 {
        return s;
    }
    let g = s.geometry;
    let own = own_refusal(g, held.count, size, room, block);
    if own != 0 {
        return stopped(g, own);
    }
    if ring::in_window(g, card, s.window, block) {
        return stopped(g, 11);
    }
    if s.free == 0 {
        return stopped(g, 14);
    }
    s
}

// Plans and makes a put that is not refused: one block, as a commit makes it, with both searches from Tail.
fn make_put(
    s: Standing,
    card: &mut [u8],
    index: &[u8; 640],
    map: Map,
    block: u64,
    data: &[u8],
    choice: &[u8],
    allowance: u64,
) -> Stored
    requires { (r : Pending) × Puttable card.old map r block «data».now choice.now index.now s }
    ensures { (p : Pending) → Puttable card.old map p block «data».now choice.now index.now s → Logged card.old map p block «data».now choice.now allowance result card.new }
{
    let g = s.geometry;
    let w = s.window;
    let numbers = [block];
    let mut plan = EMPTY;
    plan::find_homes(
        g,
        card,
        index,
        &numbers,
        &mut plan.entries,
        &mut plan.previous,
    );
    let count = codec::block_size(g) / 8 + 3;
    let made = commit::make_save(
        g, card, w.tail, w.head, map, &numbers, data, &mut plan, choice, count, allowance, false,
    );
    let after = freemap::with(map, usize::from(plan.blocks[0]));
    stores::hand_on(made.answer, map, after)
}

// The place of the entry of each of the window's numbers.
fn find_places(g: Geometry, card: &[u8], index: &[u8; 640], w: Window, places: &mut [u8; 128])
    requires { Findable g card.now index.now w × (length places.old ≡ 128) }
    ensures { Places g card.now places.new w.count }
{
    for j in 0..w.count as usize {
        let at = checks::find(g, card, index, ring::window_number(g, card, w, j as u64));
        places[j] = at as u8;
    }
}

// The role switches of the entries at the first n places. A store touches its own entry alone, so each is read as it stood at the start.
fn make_switches(g: Geometry, card: &mut [u8], places: &[u8; 128], n: usize, credit: u64) -> u64
    requires { Fitted g card.old × Places g card.old places.now n }
    ensures { (ch : List ℕ) → Did Medium.card (each_below (switch_at g card.old places.now) n) ch credit card.old card.new result }
{
    let mut left = credit;
    for j in 0..n {
        let at = usize::from(places[j]);
        let e = commit::switch_role(checks::entry_of(g, card, at));
        left = stores::make_entry(card, stores::entry_place(g, at), e, left);
    }
    left
}

// The role switches, then Tail set to Head.
fn make_finish(s: Standing, card: &mut [u8], index: &[u8; 640], map: Map, allowance: u64) -> Stored
    requires { (r : Pending) × Finishable card.old map r index.now s }
    ensures { (r : Pending) → Finishable card.old map r index.now s → Finished card.old map r allowance result card.new }
{
    let g = s.geometry;
    let w = s.window;
    let mut places = [0u8; 128];
    find_places(g, card, index, w, &mut places);
    let count = w.count + 1;
    let a = make_switches(
        g,
        card,
        &places,
        w.count as usize,
        stores::credit(count, allowance),
    );
    stores::make_word(card, 72, w.head, a);
    stores::hand_on(stores::answer(count, allowance), map, s.currents)
}

// What a put hands back, from what it came to: done hands on the next record, cut and refused the one it got.
fn hand_back(s: Stored, held: Pending) -> Put
    requires { (n : ℕ) → s.answer ≡ Answer.Done n → held.count + 1 < 18446744073709551616 }
    ensures { (result.answer ≡ s.answer) × (result.map ≡ s.map) × (result.save.held ≡ next_record s.answer held) }
{
    let held = match s.answer {
        Answer::Done(_) => Pending {
            count: held.count + 1,
            ..held
        },
        Answer::Cut => held,
        Answer::Refused(_) => held,
    };
    Put {
        answer: s.answer,
        map: s.map,
        save: Save { held },
    }
}

impl Save {
    // Opens a save on a settled card: its record has Tail's position and count 0. Refused with 1, 2 and 4 to 7.
    pub fn open(card: &[u8]) -> Opened
        ensures { result ≡ opened card.now }
    {
        let f = ring::fit_of(card, 2, 2);
        if f.refusal != 0 {
            return Opened::Refused(f.refusal);
        }
        let r = checks::card_refusal(f, card);
        if r != 0 {
            return Opened::Refused(r);
        }
        Opened::Is(Pending {
            tail: f.tail,
            count: 0,
        })
    }

    // Puts disk block `block`, whose bytes are `data`, into the save. `allowance` stores still happen; where the power fails in the block's words, those
    // are made whose byte of `choice` is 1. Refused before any store: 1, 2, 4 to 6, 18, 15, 8, 9, 17, 10, 11 and 14. Done hands on the next record and
    // the map of the card that is left.
    pub fn put(
        self,
        card: &mut [u8],
        map: Map,
        block: u64,
        data: &[u8],
        choice: &[u8],
        allowance: u64,
    ) -> Put
        ensures { PutBlock card.old map self.held block «data».now choice.now allowance result card.new }
    {
        let held = self.held;
        let mut index = [0u8; 640];
        let s = ask(
            held,
            card,
            map,
            block,
            data.len(),
            plan::choice_room(choice),
            &mut index,
        );
        if s.refusal != 0 {
            return hand_back(stores::hand_on(Answer::Refused(s.refusal), map, map), held);
        }
        let t = make_put(s, card, &index, map, block, data, choice, allowance);
        hand_back(t, held)
    }

    // Finishes the save: the role switches of its entries, then Tail set to Head. `allowance` stores still happen. Refused before any store: 1, 2, 4 to
    // 6, 18, 15, and 8 where nothing was put. Done hands on the map of the card that is left.
    pub fn finish(self, card: &mut [u8], map: Map, allowance: u64) -> Stored
        ensures { Finished card.old map self.held allowance result card.new }
    {
        let held = self.held;
        let mut index = [0u8; 640];
        let s = meet(held, card, map, &mut index);
        if s.refusal != 0 {
            return stores::hand_on(Answer::Refused(s.refusal), map, map);
        }
        if held.count == 0 {
            return stores::hand_on(Answer::Refused(8), map, map);
        }
        make_finish(s, card, &index, map, allowance)
    }
}
