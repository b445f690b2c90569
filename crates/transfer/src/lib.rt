// Load and evict: a block copied from disk to card, and from card to disk.
#![tactic(auto)]

ghost use Rattle.std.specs.Prelude.{◌≡◌, true, List, ℕ, ◌/◌, ◌≤◌, ◌<◌, length};
ghost use Rattle.protocol.specs.Layout.{good_geometry, block_size, disk_length};
ghost use Rattle.protocol.specs.Recency.{is_arranged, to_front, turned};
ghost use Rattle.protocol.specs.Load.{load_work, table_after_load, evict_runs, evict_work};
ghost use Rattle.ring.specs.Fitted.{Fitted};
ghost use Rattle.checks.specs.Chain.{Blank};
ghost use Rattle.plan.specs.Met.{Searchable};
ghost use Rattle.transfer.specs.Examined.{Examined, Chosen, Roomed, Located};
ghost use Rattle.transfer.specs.Moved.{load_run, evict_run, evict_count, loaded_runs, Leaving, Both, Moved, Finished};

use plan::Basis;
use protocol::{Answer, Entry, FRESH, Geometry, Map, Stored};
use stores::Run;

// 1 to 7, 15, 16 unless the table is arranged, 17 and 10, and the index of the card's numbers.
fn examine(
    card: &[u8],
    disk: &[u8],
    map: Map,
    arranged: bool,
    b: u64,
    choice: &[u8],
    index: &mut [u8; 640],
) -> Basis
    requires { Blank index.old }
    ensures { Examined card.now disk.now map arranged b choice.now index.new result }
{
    let x = plan::meet(card, disk, map, arranged, index);
    if x.refusal != 0 {
        return x;
    }
    let g = x.geometry;
    let room = plan::choice_room(choice);
    if (room as u64) < codec::block_size(g) / 8 {
        return plan::stopped(g, 17);
    }
    if g.disk <= b {
        return plan::stopped(g, 10);
    }
    x
}

// Where a load puts its block on a card of this geometry, with the map in which that is marked, or its refusal.
#[derive(Clone, Copy)]
pub struct Room {
    pub refusal: u8,
    pub geometry: Geometry,
    pub block: u8,
    pub entry: u8,
    pub map: Map,
}

fn no_room(g: Geometry, refusal: u8) -> Room
    ensures { result.refusal ≡ refusal }
{
    Room {
        refusal,
        geometry: g,
        block: 0,
        entry: 0,
        map: Map { low: 0, high: 0 },
    }
}

// 12 and 14, and where neither is given the first free data block and the first unused entry of the walk from Head mod N.
fn choose(x: Basis, card: &[u8], map: Map, index: &[u8; 640], b: u64) -> Room
    requires { Searchable x.geometry card.now x.head index.now map x.free × (b < x.geometry.disk) }
    ensures { Chosen x.geometry card.now b result }
{
    let g = x.geometry;
    if checks::find(g, card, index, b) < g.blocks as usize {
        return no_room(g, 12);
    }
    if x.free < 1 {
        return no_room(g, 14);
    }
    let start = plan::search_start(g, x.head);
    let mut blocks = [0u8; 128];
    let marked = freemap::take(map, start, 1, &mut blocks);
    let j = plan::next_unused(g, card, start, 0);
    let unused = plan::place_after(g, start, j) as u8;
    Room {
        refusal: 0,
        geometry: g,
        block: blocks[0],
        entry: unused,
        map: marked,
    }
}

fn find_room(card: &[u8], disk: &[u8], map: Map, arranged: bool, b: u64, choice: &[u8]) -> Room
    ensures { (t : List ℕ) → arranged ≡ is_arranged t → Roomed card.now disk.now map t b choice.now result }
{
    let mut index = [0u8; 640];
    let x = examine(card, disk, map, arranged, b, choice, &mut index);
    if x.refusal != 0 {
        return no_room(x.geometry, x.refusal);
    }
    choose(x, card, map, &index, b)
}

// What a load's list has at its two places: the words of disk block b into data block `block`, then the entry for it at place `entry`, clean. A cut
// between them leaves the data block free.
pub fn load_run(g: Geometry, b: u64, block: u8, entry: u8, at: usize) -> Run
    requires { (good_geometry g ≡ true) × (b < g.disk) × (block < g.blocks) × (entry < g.blocks) }
    ensures { result ≡ load_run g b block entry at }
{
    if at == 0 {
        let to = stores::block_place(g, u64::from(block));
        return Run::Words(to, stores::disk_place(g, b));
    }
    let e = Entry {
        flags: 0x80,
        number: b,
        previous: FRESH,
        current: u32::from(block),
    };
    Run::Entry(stores::entry_place(g, usize::from(entry)), e)
}

// Makes a load's list. No run of it goes to the disk.
fn make_load(
    g: Geometry,
    card: &mut [u8],
    disk: &[u8],
    b: u64,
    block: u8,
    entry: u8,
    choice: &[u8],
    allowance: u64,
) -> Answer
    requires { Fitted g card.old × (length disk.now ≡ disk_length g) × (b < g.disk) × (block < g.blocks) × (entry < g.blocks) × (block_size g / 8 ≤ length choice.now) }
    ensures { Moved (loaded_runs g disk.now b block entry) choice.now allowance card.old card.new disk.now disk.now result }
{
    let mut no_disk = [0u8; 1];
    let count = codec::block_size(g) / 8 + 1;
    let words = load_run(g, b, block, entry, 0);
    let credit = stores::credit(count, allowance);
    let left = stores::make_run(g, card, &mut no_disk, disk, words, choice, credit);
    let last = load_run(g, b, block, entry, 1);
    stores::make_run(g, card, &mut no_disk, disk, last, choice, left);
    stores::answer(count, allowance)
}

// The number x to the front of the table, once its call has answered done.
fn touch_done(answer: Answer, table: &mut [u8], x: u8)
    requires { (is_arranged table.old ≡ true) × (x < 128) }
    ensures { table.new ≡ turned answer table.old (to_front x table.old) }
{
    let done = matches!(answer, Answer::Done(_));
    if done {
        recency::to_front(table, x);
    }
}

// Copies an uncached disk block into the first free data block, then stores the first unused entry for it, clean. Done moves that entry to the
// front of the table.
pub fn load(
    card: &mut [u8],
    disk: &[u8],
    map: Map,
    table: &mut [u8],
    b: u64,
    choice: &[u8],
    allowance: u64,
) -> Stored
    ensures media { Finished (load_work 2 card.old disk.now map table.old b choice.now) allowance map card.old card.new disk.now disk.now result }
    ensures table { table.new ≡ table_after_load allowance card.old disk.now map table.old b choice.now }
{
    let arranged = recency::is_arranged(table);
    let room = find_room(card, disk, map, arranged, b, choice);
    if room.refusal != 0 {
        return Stored {
            answer: Answer::Refused(room.refusal),
            map,
        };
    }
    let g = room.geometry;
    let answer = make_load(g, card, disk, b, room.block, room.entry, choice, allowance);
    touch_done(answer, table, room.entry);
    stores::hand_on(answer, map, room.map)
}

// The place of an entry on a card of this geometry, or a refusal.
#[derive(Clone, Copy)]
pub struct Place {
    pub refusal: u8,
    pub geometry: Geometry,
    pub at: usize,
}

// All of evict's refusals, 13 the last of them, and where none is given the place of the entry for b.
fn find_cached(card: &[u8], disk: &[u8], map: Map, b: u64, choice: &[u8]) -> Place
    ensures { Located card.now disk.now map b choice.now result }
{
    let mut index = [0u8; 640];
    let x = examine(card, disk, map, true, b, choice, &mut index);
    let g = x.geometry;
    if x.refusal != 0 {
        return Place {
            refusal: x.refusal,
            geometry: g,
            at: 0,
        };
    }
    let at = checks::find(g, card, &index, b);
    if at < g.blocks as usize {
        Place {
            refusal: 0,
            geometry: g,
            at,
        }
    } else {
        Place {
            refusal: 13,
            geometry: g,
            at: 0,
        }
    }
}

// What an evict's list has at its two places: a modified block's sectors, of a clean block nothing, then zeros over its entry e at place `entry`. A
// cut between them leaves the block cached.
pub fn evict_run(g: Geometry, b: u64, entry: usize, e: Entry, at: usize) -> Run
    requires { (good_geometry g ≡ true) × (b < g.disk) × (entry < g.blocks) × (e.current < g.blocks) }
    ensures { result ≡ evict_run g b entry e at }
{
    if at != 0 {
        let unused = Entry {
            flags: 0,
            number: 0,
            previous: 0,
            current: 0,
        };
        return Run::Entry(stores::entry_place(g, entry), unused);
    }
    if !codec::is_modified(e) {
        return Run::Nothing;
    }
    let from = stores::block_place(g, u64::from(e.current));
    Run::Sectors(stores::disk_place(g, b), from)
}

// The count of the stores of an evict of the block whose entry is e.
pub fn evict_count(g: Geometry, e: Entry) -> u64
    requires { good_geometry g ≡ true }
    ensures { result ≡ evict_count g e }
{
    if codec::is_modified(e) {
        codec::block_size(g) / 512 + 1
    } else {
        1
    }
}

// Makes an evict's list under a credit, and hands on what is left of it. No run of it takes its bytes from elsewhere than the card.
pub fn take_off(
    g: Geometry,
    card: &mut [u8],
    disk: &mut [u8],
    b: u64,
    at: usize,
    e: Entry,
    choice: &[u8],
    credit: u64,
) -> u64
    requires { Leaving g card.old disk.old b at e choice.now }
    ensures { Both (evict_runs g card.old b) choice.now credit card.old card.new disk.old disk.new result }
{
    let no_data = [0u8; 1];
    let sectors = evict_run(g, b, at, e, 0);
    let left = stores::make_run(g, card, disk, &no_data, sectors, choice, credit);
    let last = evict_run(g, b, at, e, 1);
    stores::make_run(g, card, disk, &no_data, last, choice, left)
}

// The same under an allowance, answered.
fn make_evict(
    g: Geometry,
    card: &mut [u8],
    disk: &mut [u8],
    b: u64,
    at: usize,
    e: Entry,
    choice: &[u8],
    allowance: u64,
) -> Answer
    requires { Leaving g card.old disk.old b at e choice.now }
    ensures { Moved (evict_runs g card.old b) choice.now allowance card.old card.new disk.old disk.new result }
{
    let count = evict_count(g, e);
    let credit = stores::credit(count, allowance);
    take_off(g, card, disk, b, at, e, choice, credit);
    stores::answer(count, allowance)
}

// Takes a cached block off the card, its bytes saved on the disk.
pub fn evict(
    card: &mut [u8],
    disk: &mut [u8],
    map: Map,
    b: u64,
    choice: &[u8],
    allowance: u64,
) -> Stored
    ensures { Finished (evict_work 2 card.old disk.old map b choice.now) allowance map card.old card.new disk.old disk.new result }
{
    let place = find_cached(card, disk, map, b, choice);
    if place.refusal != 0 {
        return Stored {
            answer: Answer::Refused(place.refusal),
            map,
        };
    }
    let g = place.geometry;
    let e = checks::entry_of(g, card, place.at);
    let freed = freemap::without(map, e.current as usize);
    let answer = make_evict(g, card, disk, b, place.at, e, choice, allowance);
    stores::hand_on(answer, map, freed)
}
