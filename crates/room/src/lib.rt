// The room-making commit: as many blocks are evicted as are missing, the least recently used ones outside the transaction, and then it is a commit
// on the card so left.
#![tactic(auto)]

ghost use Rattle.std.specs.Prelude.{◌≡◌, true, List, ℕ, ◌+◌, ◌≤◌, ◌<◌, length, get_or};
ghost use Rattle.protocol.specs.Layout.{geometry_of};
ghost use Rattle.protocol.specs.Check.{fit_refusal};
ghost use Rattle.protocol.specs.Commit.{numbers_fit};
ghost use Rattle.protocol.specs.Map.{handed_on};
ghost use Rattle.protocol.specs.Recency.{is_arranged, turned, all_to_front};
ghost use Rattle.protocol.specs.Room.{is_victim, room_work, table_after_save};
ghost use Rattle.ring.specs.Fitted.{Fitted};
ghost use Rattle.checks.specs.Chain.{Blank};
ghost use Rattle.recency.specs.Moved.{Places};
ghost use Rattle.plan.specs.Met.{Searchable};
ghost use Rattle.transfer.specs.Moved.{Both, Finished};
ghost use Rattle.room.specs.Made.{Asked, Sifting, Gathered, Chosen, taken_runs, Clearing, Weighed, Prepared, counted, Makeable};

use plan::{Basis, EMPTY, Plan};
use protocol::{Answer, Geometry, Map, Stored};

// All refusals but 14, of `size` bytes of data and a choice of this room; and the index of the card's numbers.
fn ask(
    card: &[u8],
    disk: &[u8],
    map: Map,
    table: &[u8],
    numbers: &[u64],
    size: usize,
    room: usize,
    index: &mut [u8; 640],
) -> Basis
    requires { Blank index.old }
    ensures { Asked card.now disk.now map table.now numbers.now size room index.new result }
{
    let x = plan::meet(card, disk, map, recency::is_arranged(table), index);
    if x.refusal != 0 {
        return x;
    }
    let own = plan::request_refusal(x.geometry, numbers, size, room);
    if own != 0 {
        return plan::stopped(x.geometry, own);
    }
    x
}

// Whether entry x is in use and none of the marked ones, which are the transaction's.
fn is_victim(g: Geometry, card: &[u8], marks: &[u8; 256], x: u8) -> bool
    requires { Fitted g card.now × (length marks.now ≡ 256) }
    ensures { (ns : List ℕ) → Sifting g card.now ns marks.now → result ≡ is_victim g card.now ns x }
{
    let at = usize::from(x);
    if g.blocks as usize <= at {
        return false;
    }
    if marks[at] != 0 {
        return false;
    }
    codec::in_use(checks::entry_of(g, card, at))
}

// The first `want` victims, the least recently used first, and how many there are of these. One walk over the table finds all of them.
fn gather(
    g: Geometry,
    card: &[u8],
    table: &[u8],
    marks: &[u8; 256],
    want: usize,
    victims: &mut [u8; 128],
) -> usize
    requires { Fitted g card.now × (length table.now ≡ 128) × (length marks.now ≡ 256) × (length victims.old ≡ 128) }
    ensures { (ns : List ℕ) → Sifting g card.now ns marks.now → Gathered g card.now table.now ns want victims.new result }
{
    let mut found = 0;
    for x in table.iter().rev() {
        if found == want {
            return found;
        }
        if is_victim(g, card, marks, *x) {
            victims[found] = *x;
            found += 1;
        }
    }
    found
}

// What a commit's victims come to: 14, or how many they are.
#[derive(Clone, Copy)]
pub struct Selection {
    pub refusal: u8,
    pub count: usize,
}

// 14, or the victims and where the numbers are cached. No card has room for more than 128 blocks.
fn choose(
    x: Basis,
    card: &[u8],
    index: &[u8; 640],
    table: &[u8],
    numbers: &[u64],
    entries: &mut [u8; 128],
    previous: &mut [u16; 128],
    victims: &mut [u8; 128],
) -> Selection
    requires { (x.geometry ≡ geometry_of card.now) × (fit_refusal 2 2 card.now ≡ 0) × ((m : Map) × Searchable x.geometry card.now x.head index.now m x.free) × (numbers_fit x.geometry numbers.now ≡ true) × (is_arranged table.now ≡ true) × (length entries.old ≡ 128) × (length previous.old ≡ 128) × (length victims.old ≡ 128) }
    ensures { Chosen x.geometry card.now table.now numbers.now entries.new previous.new victims.new result }
{
    let n = numbers.len();
    if 128 < n {
        return Selection {
            refusal: 14,
            count: 0,
        };
    }
    plan::find_homes(x.geometry, card, index, numbers, entries, previous);
    let missing = n.saturating_sub(x.free as usize);
    let marks = recency::marks_of(entries, n);
    let found = gather(x.geometry, card, table, &marks, missing, victims);
    if found < missing {
        return Selection {
            refusal: 14,
            count: 0,
        };
    }
    Selection {
        refusal: 0,
        count: missing,
    }
}

// The count of the evictions' stores, and the data blocks that they free.
fn weigh(g: Geometry, card: &[u8], victims: &[u8; 128], count: usize, freed: &mut [u16; 128]) -> u64
    requires { Fitted g card.now × ((d ch : List ℕ) × Clearing g card.now d ch victims.now count) × (length freed.old ≡ 128) }
    ensures { Weighed g card.now victims.now count freed.new result }
{
    let mut stores = 0;
    for (k, v) in victims[..count].iter().enumerate() {
        let e = checks::entry_of(g, card, usize::from(*v));
        freed[k] = e.current as u16;
        stores += transfer::evict_count(g, e);
    }
    stores
}

// The evictions, one after the other, under a credit; what is left of it is handed on.
fn clear(
    g: Geometry,
    card: &mut [u8],
    disk: &mut [u8],
    victims: &[u8; 128],
    count: usize,
    choice: &[u8],
    credit: u64,
) -> u64
    requires { Clearing g card.old disk.old choice.now victims.now count }
    ensures { Both (taken_runs g card.old victims.now count) choice.now credit card.old card.new disk.old disk.new result }
{
    let mut left = credit;
    for v in &victims[..count] {
        if left == 0 {
            return 0;
        }
        let at = usize::from(*v);
        let e = checks::entry_of(g, card, at);
        left = transfer::take_off(g, card, disk, e.number, at, e, choice, left);
    }
    left
}

// What a room-making commit comes to: refused, or to be made, with the card's geometry and Head and how many victims it has.
#[derive(Clone, Copy)]
pub struct Making {
    pub refusal: u8,
    pub geometry: Geometry,
    pub head: u64,
    pub count: usize,
}

// All refusals, and where there is none the victims and where the numbers are cached.
fn prepare(
    card: &[u8],
    disk: &[u8],
    map: Map,
    table: &[u8],
    numbers: &[u64],
    size: usize,
    room: usize,
    entries: &mut [u8; 128],
    previous: &mut [u16; 128],
    victims: &mut [u8; 128],
) -> Making
    requires { (length entries.old ≡ 128) × (length previous.old ≡ 128) × (length victims.old ≡ 128) }
    ensures { Prepared card.now disk.now map table.now numbers.now size room entries.new previous.new victims.new result }
{
    let mut index = [0u8; 640];
    let x = ask(card, disk, map, table, numbers, size, room, &mut index);
    if x.refusal != 0 {
        return Making {
            refusal: x.refusal,
            geometry: x.geometry,
            head: x.head,
            count: 0,
        };
    }
    let v = choose(x, card, &index, table, numbers, entries, previous, victims);
    Making {
        refusal: v.refusal,
        geometry: x.geometry,
        head: x.head,
        count: v.count,
    }
}

// The commit's answer, with the evictions' stores counted; on done the map that it hands on, and each block's entry moved to the front in order.
fn finish(
    s: Stored,
    evicted: u64,
    map: Map,
    table: &mut [u8],
    entries: &[u8; 128],
    n: usize,
) -> Stored
    requires { (is_arranged table.old ≡ true) × (n ≤ 128) × Places entries.now n × ((m : ℕ) → s.answer ≡ Answer.Done m → evicted + m < 18446744073709551616) }
    ensures answer { (result.answer ≡ counted evicted s.answer) × (result.map ≡ handed_on s.answer map s.map) }
    ensures table { table.new ≡ turned s.answer table.old (all_to_front (λ i. get_or entries.now i 0) n table.old) }
{
    match s.answer {
        Answer::Done(k) => {
            recency::all_to_front(table, entries, n);
            Stored {
                answer: Answer::Done(evicted + k),
                map: s.map,
            }
        }
        Answer::Cut => Stored {
            answer: Answer::Cut,
            map,
        },
        Answer::Refused(r) => Stored {
            answer: Answer::Refused(r),
            map,
        },
    }
}

// The evictions, then the commit on the card so left. Where the power fails in the evictions the card is not planned on.
fn make(
    p: Making,
    card: &mut [u8],
    disk: &mut [u8],
    map: Map,
    table: &mut [u8],
    numbers: &[u64],
    data: &[u8],
    plan: &mut Plan,
    victims: &[u8; 128],
    choice: &[u8],
    allowance: u64,
) -> Stored
    requires { Makeable card.old disk.old map table.old numbers.now «data».now choice.now plan.old.entries plan.old.previous victims.now p }
    ensures media { Finished (room_work 2 card.old disk.old map table.old numbers.now «data».now choice.now) allowance map card.old card.new disk.old disk.new result }
    ensures table { table.new ≡ table_after_save allowance card.old disk.old map table.old numbers.now «data».now choice.now }
{
    let mut freed = [0u16; 128];
    let count = weigh(p.geometry, card, victims, p.count, &mut freed);
    let credit = stores::credit(count, allowance);
    clear(p.geometry, card, disk, victims, p.count, choice, credit);
    if allowance < count {
        return stores::hand_on(Answer::Cut, map, map);
    }
    let left = plan::release(map, &freed, p.count);
    let s = commit::save(
        p.geometry,
        card,
        p.head,
        left,
        numbers,
        data,
        plan,
        choice,
        allowance - count,
    );
    finish(s, count, map, table, &plan.entries, numbers.len())
}

// Saves the blocks `numbers`, with their bytes side by side in `data`, as one commit, after as many evictions as blocks are missing. `allowance`
// stores still happen. Refused before any store: 1 to 11, 14 to 17. Done hands on the map of the card that is left, and moves the entry of each
// block to the front of the table.
pub fn commit(
    card: &mut [u8],
    disk: &mut [u8],
    map: Map,
    table: &mut [u8],
    numbers: &[u64],
    data: &[u8],
    choice: &[u8],
    allowance: u64,
) -> Stored
    ensures media { Finished (room_work 2 card.old disk.old map table.old numbers.now «data».now choice.now) allowance map card.old card.new disk.old disk.new result }
    ensures table { table.new ≡ table_after_save allowance card.old disk.old map table.old numbers.now «data».now choice.now }
{
    let mut plan = EMPTY;
    let mut victims = [0u8; 128];
    let p = prepare(
        card,
        disk,
        map,
        table,
        numbers,
        data.len(),
        plan::choice_room(choice),
        &mut plan.entries,
        &mut plan.previous,
        &mut victims,
    );
    if p.refusal != 0 {
        return stores::hand_on(Answer::Refused(p.refusal), map, map);
    }
    make(
        p, card, disk, map, table, numbers, data, &mut plan, &victims, choice, allowance,
    )
}
