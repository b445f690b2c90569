// Commit: a set of blocks saved whole or not at all. It is planned from the card at entry, and then made store by store under the allowance.
#![tactic(auto)]

ghost use Rattle.std.specs.Prelude.{◌≡◌, true, List, ◌++◌, ℕ, ◌+◌, ◌*◌, ◌/◌, ◌≤◌, ◌<◌, length, get_or};
ghost use Rattle.protocol.specs.Below.{each_below, around};
ghost use Rattle.protocol.specs.Layout.{good_geometry, block_size, slot_place, entry_place, block_place};
ghost use Rattle.protocol.specs.Entry.{entry_of, log_flags, switched};
ghost use Rattle.protocol.specs.Store.{Medium, single, slot_store, head_store};
ghost use Rattle.protocol.specs.Commit.{new_block};
ghost use Rattle.ring.specs.Fitted.{Fitted};
ghost use Rattle.checks.specs.Keys.{Lists};
ghost use Rattle.stores.specs.Did.{Did};
ghost use Rattle.plan.specs.Planned.{previous_of, over_of};
ghost use Rattle.commit.specs.Making.{step_runs, plan_by, planned_block, planned_switch, planned_end, part_runs, block_run, switch_run, run_at, Named, Ready, Makable, Made};
ghost use Rattle.commit.specs.Committed.{Committed, Savable, Saved};

use plan::{EMPTY, Plan};
use protocol::{Answer, Entry, FRESH, Geometry, Map, Stored};
use stores::Run;

// The previous block that a plan's number stands for.
fn previous_of(x: u16) -> u32
    ensures { result ≡ previous_of x }
{
    if x < 256 { (x % 128) as u32 } else { FRESH }
}

// The log entry's flag byte: with P where the version before is modified.
fn log_flags(x: u16) -> u8
    ensures { result ≡ log_flags 2 (over_of x) }
{
    if x / 128 == 1 { 0x87 } else { 0x83 }
}

// The entry of a block that is being saved, with the log role. Of the number the compiler is told that it has no high bytes.
fn log_entry(number: u64, previous: u16, block: u8) -> Entry
    requires { number < 4294967296 }
    ensures { result ≡ entry_of (log_flags 2 (over_of previous)) number (previous_of previous) block }
{
    let low = number as u32;
    Entry {
        flags: log_flags(previous),
        number: low as u64,
        previous: previous_of(previous),
        current: block as u32,
    }
}

// The role switch: R cleared and nothing else changed. The previous block stays named, since a cut before Tail moves must find it.
pub fn switch_role(e: Entry) -> Entry
    ensures { result ≡ switched e }
{
    Entry {
        flags: e.flags / 2 * 2,
        ..e
    }
}

// The words of block i, which go to the data block `block`.
fn words_run(g: Geometry, block: u8, i: usize) -> Run
    requires { (good_geometry g ≡ true) × (block < g.blocks) × (i < g.slots) }
    ensures { result ≡ Run.Words (block_place g block) (i * block_size g) }
{
    let to = stores::block_place(g, block as u64);
    let from = codec::block_offset(g, i as u64);
    Run::Words(to, from as usize)
}

fn entry_run(g: Geometry, at: u8, e: Entry) -> Run
    requires { (good_geometry g ≡ true) × (at < g.blocks) }
    ensures { result ≡ Run.Entry (entry_place g at) e }
{
    let place = stores::entry_place(g, at as usize);
    Run::Entry(place, e)
}

// The number into the slot at Head, which is i places past where it stood at entry.
fn slot_run(g: Geometry, head: u64, i: usize, number: u64) -> Run
    requires { (good_geometry g ≡ true) × (head < g.slots) × (i < g.slots) }
    ensures { result ≡ Run.Word (slot_place (around g.slots head i)) number }
{
    let slot = ring::forward(g.slots, head, i as u64);
    Run::Word(128 + 8 * slot as usize, number)
}

// Head or Tail, at byte `at` of the card, set to where Head is after n blocks.
fn ring_run(g: Geometry, at: usize, head: u64, n: usize) -> Run
    requires { (good_geometry g ≡ true) × (head < g.slots) × (n ≤ g.slots) }
    ensures { result ≡ Run.Word at (around g.slots head n) }
{
    Run::Word(at, ring::forward(g.slots, head, n as u64))
}

// What the list has of block i: its words, its entry, its number into the slot at Head, Head forward by one.
fn block_run(g: Geometry, plan: &Plan, numbers: &[u64], head: u64, i: usize, part: usize) -> Run
    requires { (good_geometry g ≡ true) × Named g plan.now numbers.now × (length numbers.now < g.slots) × (head < g.slots) × (i < length numbers.now) }
    ensures { result ≡ block_run g plan.now head numbers.now i part }
{
    if part == 0 {
        return words_run(g, plan.blocks[i], i);
    }
    if part == 1 {
        let e = log_entry(numbers[i], plan.previous[i], plan.blocks[i]);
        return entry_run(g, plan.entries[i], e);
    }
    if part == 2 {
        return slot_run(g, head, i, numbers[i]);
    }
    ring_run(g, 64, head, i + 1)
}

// The role switch of block i: its entry again, without R.
fn switch_run(g: Geometry, plan: &Plan, numbers: &[u64], i: usize) -> Run
    requires { (good_geometry g ≡ true) × Named g plan.now numbers.now × (i < length numbers.now) }
    ensures { result ≡ switch_run g plan.now numbers.now i }
{
    let e = switch_role(log_entry(numbers[i], plan.previous[i], plan.blocks[i]));
    entry_run(g, plan.entries[i], e)
}

// What a commit's list has at a place: four for each block in turn, then one role switch for each, then Tail set to Head. Whoever makes these in
// order, and no others, makes commit's stores.
pub fn run_at(g: Geometry, plan: &Plan, numbers: &[u64], head: u64, at: usize) -> Run
    requires { (good_geometry g ≡ true) × Named g plan.now numbers.now × (length numbers.now < g.slots) × (head < g.slots) }
    ensures { result ≡ run_at g plan.now head numbers.now at }
{
    let n = numbers.len();
    if at < 4 * n {
        return block_run(g, plan, numbers, head, at / 4, at % 4);
    }
    let i = at - 4 * n;
    if i < n {
        return switch_run(g, plan, numbers, i);
    }
    ring_run(g, 72, head, n)
}

// The number into the slot at Head, and Head forward by one: Head is i places past where it stood at entry.
fn log_number(g: Geometry, card: &mut [u8], head: u64, i: usize, number: u64, left: u64) -> u64
    requires { Fitted g card.old × (head < g.slots) × (i < g.slots) }
    ensures { (ch : List ℕ) → Did Medium.card (single (slot_store (around g.slots head i) number) ++ single (head_store (around g.slots head (i + 1)))) ch left card.old card.new result }
{
    let slot = ring::forward(g.slots, head, i as u64);
    let next = ring::forward(g.slots, head, i as u64 + 1);
    let a = stores::make_word(card, 128 + 8 * slot as usize, number, left);
    stores::make_word(card, 64, next, a)
}

// Block i: its words, its entry at place `at`, its number into the ring. The entry's bytes are staged before the words are copied: the move of sixteen
// bytes that stores them waits until those put one by one are in memory. The number is read again, which lets the compiler store it whole.
fn make_block(
    g: Geometry,
    card: &mut [u8],
    at: usize,
    e: Entry,
    numbers: &[u64],
    data: &[u8],
    head: u64,
    i: usize,
    choice: &[u8],
    left: u64,
) -> u64
    requires { Fitted g card.old × (at < g.blocks) × (e.current < g.blocks) × (i * block_size g + block_size g ≤ length «data».now) × (head < g.slots) × (i < g.slots) × (i < length numbers.now) × (e.number ≡ get_or numbers.now i 0) × (block_size g / 8 ≤ length choice.now) }
    ensures { Did Medium.card (step_runs g at e «data».now head i) choice.now left card.old card.new result }
{
    let place = stores::entry_place(g, at);
    let mut staged = [0u8; 32];
    codec::put_entry(&mut staged, place % 16, e);
    let from = codec::block_offset(g, i as u64) as usize;
    let to = stores::block_place(g, e.current as u64);
    let a = stores::make_words(g, card, to, data, from, choice, left);
    let b = stores::make_staged(card, place, &staged, a);
    log_number(g, card, head, i, numbers[i], b)
}

// Each block in turn: a put's one block, and all blocks of a commit.
fn make_blocks(
    g: Geometry,
    card: &mut [u8],
    plan: &Plan,
    numbers: &[u64],
    data: &[u8],
    head: u64,
    choice: &[u8],
    credit: u64,
) -> u64
    requires { Fitted g card.old × Ready g plan.now head numbers.now «data».now × (block_size g / 8 ≤ length choice.now) }
    ensures { Did Medium.card (each_below (planned_block g plan.now head numbers.now «data».now) (length numbers.now)) choice.now credit card.old card.new result }
{
    let mut a = credit;
    for i in 0..numbers.len() {
        let e = log_entry(numbers[i], plan.previous[i], plan.blocks[i]);
        let at = usize::from(plan.entries[i]);
        a = make_block(g, card, at, e, numbers, data, head, i, choice, a);
    }
    a
}

// The role switches: each entry again, without R.
fn make_switches(g: Geometry, card: &mut [u8], plan: &Plan, numbers: &[u64], left: u64) -> u64
    requires { Fitted g card.old × Named g plan.now numbers.now }
    ensures { (ch : List ℕ) → Did Medium.card (each_below (planned_switch g plan.now numbers.now) (length numbers.now)) ch left card.old card.new result }
{
    let mut a = left;
    for i in 0..numbers.len() {
        let e = switch_role(log_entry(numbers[i], plan.previous[i], plan.blocks[i]));
        let place = stores::entry_place(g, usize::from(plan.entries[i]));
        a = stores::make_entry(card, place, e, a);
    }
    a
}

// The role switches, then Tail set to Head: what a finish adds to the blocks.
fn close_list(
    g: Geometry,
    card: &mut [u8],
    plan: &Plan,
    numbers: &[u64],
    head: u64,
    left: u64,
) -> u64
    requires { Fitted g card.old × Named g plan.now numbers.now × (length numbers.now < g.slots) × (head < g.slots) }
    ensures { (ch : List ℕ) → Did Medium.card (planned_end g plan.now head numbers.now) ch left card.old card.new result }
{
    let b = make_switches(g, card, plan, numbers, left);
    let end = ring::forward(g.slots, head, numbers.len() as u64);
    stores::make_word(card, 72, end, b)
}

// The runs of all places, in order; of a save that is not closed, the blocks alone. They are made by loops of their own, which cost a commit less than
// one over the places does.
fn make_list(
    g: Geometry,
    card: &mut [u8],
    plan: &Plan,
    numbers: &[u64],
    data: &[u8],
    head: u64,
    choice: &[u8],
    credit: u64,
    closed: bool,
) -> u64
    requires { Fitted g card.old × Ready g plan.now head numbers.now «data».now × (block_size g / 8 ≤ length choice.now) }
    ensures { Did Medium.card (part_runs closed g plan.now head numbers.now «data».now) choice.now credit card.old card.new result }
{
    let a = make_blocks(g, card, plan, numbers, data, head, choice, credit);
    if closed {
        return close_list(g, card, plan, numbers, head, a);
    }
    a
}

// Plans and makes a save that is not refused, of `count` stores, from where its numbers are cached: a commit, or, not closed, a put. One function for
// both: apart they cost a commit some ninety instructions more.
pub fn make_save(
    g: Geometry,
    card: &mut [u8],
    tail: u64,
    head: u64,
    map: Map,
    numbers: &[u64],
    data: &[u8],
    plan: &mut Plan,
    choice: &[u8],
    count: u64,
    allowance: u64,
    closed: bool,
) -> Stored
    requires { Makable g card.old tail head map numbers.now «data».now choice.now plan.old.entries plan.old.previous plan.old.blocks count }
    ensures made { Made closed g card.old head map numbers.now «data».now choice.now plan.new.entries plan.old.previous plan.new.blocks count allowance result card.new }
    ensures previous { plan.new.previous ≡ plan.old.previous }
{
    let after = plan::plan_of(
        g,
        card,
        tail,
        map,
        numbers,
        &mut plan.entries,
        &plan.previous,
        &mut plan.blocks,
    );
    make_list(
        g,
        card,
        plan,
        numbers,
        data,
        head,
        choice,
        stores::credit(count, allowance),
        closed,
    );
    stores::hand_on(stores::answer(count, allowance), map, after)
}

// A commit that is not refused, on a card whose Tail is its Head: the room-making commit's, once there is room.
pub fn save(
    g: Geometry,
    card: &mut [u8],
    head: u64,
    map: Map,
    numbers: &[u64],
    data: &[u8],
    plan: &mut Plan,
    choice: &[u8],
    allowance: u64,
) -> Stored
    requires { Savable g card.old head map numbers.now «data».now choice.now plan.old.entries plan.old.previous }
    ensures saved { Saved card.old map numbers.now «data».now choice.now allowance result card.new plan.new.entries }
    ensures previous { plan.new.previous ≡ plan.old.previous }
    ensures blocks { Lists (new_block g card.old) plan.new.blocks (length numbers.now) }
{
    let count = plan::count_of(g, numbers.len());
    plan.blocks = [0; 128];
    let made = make_save(
        g, card, head, head, map, numbers, data, plan, choice, count, allowance, true,
    );
    made
}

// Saves the blocks `numbers`, with their bytes side by side in `data`, as one commit. `allowance` stores still happen. Refused before any
// store: 1, 2, 4 to 11, 14, 15 and 17. Where the power fails in a block's words, those are made whose byte of `choice` is 1. Done hands on the map
// of the card that is left.
pub fn commit(
    card: &mut [u8],
    map: Map,
    numbers: &[u64],
    data: &[u8],
    choice: &[u8],
    allowance: u64,
) -> Stored
    ensures { Committed card.old map numbers.now «data».now choice.now allowance result card.new }
{
    let mut index = [0u8; 640];
    let s = plan::admit(
        card,
        map,
        numbers,
        data.len(),
        plan::choice_room(choice),
        &mut index,
    );
    if s.refusal != 0 {
        return stores::hand_on(Answer::Refused(s.refusal), map, map);
    }
    let g = s.geometry;
    let mut plan = EMPTY;
    plan::find_homes(
        g,
        card,
        &index,
        numbers,
        &mut plan.entries,
        &mut plan.previous,
    );
    let count = plan::count_of(g, numbers.len());
    make_save(
        g, card, s.head, s.head, map, numbers, data, &mut plan, choice, count, allowance, true,
    )
}
