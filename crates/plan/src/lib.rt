// The plan of a commit, from the card at entry: its own refusals, and for each block its entry, its previous and its new data block.
#![tactic(auto)]

ghost use Rattle.std.specs.Prelude.{◌≡◌, Bool, true, List, ℕ, ◌+◌, ◌*◌, ◌/◌, ◌%◌, ◌≤◌, ◌<◌, length};
ghost use Rattle.protocol.specs.Below.{around};
ghost use Rattle.protocol.specs.Layout.{good_geometry, block_size};
ghost use Rattle.protocol.specs.Entry.{is_modified};
ghost use Rattle.protocol.specs.Search.{unused_at, search_start, unused_entries};
ghost use Rattle.protocol.specs.Map.{map_by, is_marked, free_count};
ghost use Rattle.protocol.specs.Commit.{numbers_fit, new_number, numbers_apart};
ghost use Rattle.ring.specs.Fitted.{Fitted, Framed};
ghost use Rattle.checks.specs.Keys.{NONE, Lists};
ghost use Rattle.checks.specs.Chain.{Blank};
ghost use Rattle.checks.specs.Passed.{Indexed};
ghost use Rattle.plan.specs.Request.{choice_room, request_refusal, sized_refusal};
ghost use Rattle.plan.specs.Walked.{Reached};
ghost use Rattle.plan.specs.Met.{Met};
ghost use Rattle.plan.specs.Planned.{previous_of, over_of, released, Housed, Homes, housed_at, Planned, Examined, Admission, Plannable, Prepared};

use protocol::{Entry, Geometry, Map};
use ring::Fit;

// Not 10: each number is below D.
fn numbers_fit(g: Geometry, numbers: &[u64]) -> bool
    ensures { result ≡ numbers_fit g numbers.now }
{
    numbers.iter().all(|b| *b < g.disk)
}

// Whether number i is none of those before it. It looks at all of them, so that the compiler compares several at a time.
fn is_new(numbers: &[u64], i: usize) -> bool
    requires { i < length numbers.now }
    ensures { result ≡ new_number numbers.now i }
{
    let number = numbers[i];
    let mut fresh = true;
    for b in &numbers[..i] {
        fresh &= number != *b;
    }
    fresh
}

// Not 11: no number stands there twice. A number whose remainder none before it has is new without a search; a single one is.
fn numbers_apart(numbers: &[u64]) -> bool
    ensures { result ≡ numbers_apart numbers.now }
{
    if numbers.len() < 2 {
        return true;
    }
    let mut seen = [0u8; 256];
    for (i, b) in numbers.iter().enumerate() {
        let r = (*b % 256) as usize;
        if seen[r] != 0 && !is_new(numbers, i) {
            return false;
        }
        seen[r] = 1;
    }
    true
}

// How many stores of a run the choice speaks of: none where a byte is above 1, which is too few for any run. It looks at all bytes, so that the
// compiler compares sixteen at a time.
pub fn choice_room(choice: &[u8]) -> usize
    ensures { result ≡ choice_room choice.now }
{
    let mut most = 0;
    for x in choice {
        most = most.max(*x);
    }
    if most < 2 { choice.len() } else { 0 }
}

// 8, 9, 17, 10 and 11, which the numbers, the data's length and the choice's room decide alone. Nothing is shifted before the count has passed:
// n·B then fits a word.
pub fn request_refusal(g: Geometry, numbers: &[u64], size: usize, room: usize) -> u8
    requires { good_geometry g ≡ true }
    ensures { result ≡ request_refusal g numbers.now size room }
{
    let n = numbers.len() as u64;
    if n == 0 {
        return 8;
    }
    if g.slots - 1 < n {
        return 8;
    }
    if size as u64 != codec::block_offset(g, n) {
        return 9;
    }
    if (room as u64) < codec::block_size(g) / 8 {
        return 17;
    }
    if !numbers_fit(g, numbers) {
        return 10;
    }
    if !numbers_apart(numbers) {
        return 11;
    }
    0
}

// A search starts at Tail mod N. On a settled card, as document 01 has it, that is Head mod N.
pub fn search_start(g: Geometry, tail: u64) -> usize
    requires { good_geometry g ≡ true }
    ensures { (result ≡ tail % g.blocks) × (result < g.blocks) }
{
    (tail % g.blocks) as usize
}

// The place j places forward from `start` among the card's entries.
pub fn place_after(g: Geometry, start: usize, j: usize) -> usize
    requires { (good_geometry g ≡ true) × (start < g.blocks) × (j ≤ g.blocks) }
    ensures { (result ≡ around g.blocks start j) × (result < g.blocks) }
{
    ring::forward(g.blocks, start as u64, j as u64) as usize
}

// The first place of the walk from `start` upward and round, from the place j = `from` of the walk on, that has an unused entry; N where none
// has. A walk goes on where it stopped, so that all of a commit's walks pass each entry once.
pub fn next_unused(g: Geometry, card: &[u8], start: usize, from: usize) -> usize
    requires { Fitted g card.now × (start < g.blocks) × (from ≤ g.blocks) }
    ensures { Reached (unused_at g card.now) g.blocks start from result }
{
    let n = g.blocks as usize;
    for j in from..n {
        let e = checks::entry_of(g, card, place_after(g, start, j));
        if !codec::in_use(e) {
            return j;
        }
    }
    n
}

// Where one block of a commit is cached: its entry's place, 255 where it is not; and what a commit of it replaces: its data block, with 128 added
// where it is modified, and 256 where it is not cached.
#[derive(Clone, Copy)]
pub struct Home {
    pub entry: u8,
    pub previous: u16,
}

// An entry's data block, with 128 added where it is modified.
fn replaced(e: Entry) -> u16
    requires { e.current < 128 }
    ensures { (previous_of result ≡ e.current) × (over_of result ≡ is_modified e) }
{
    let block = e.current as u16;
    if codec::is_modified(e) {
        return block + 128;
    }
    block
}

fn home_of(g: Geometry, card: &[u8], index: &[u8; 640], b: u64) -> Home
    requires { Indexed g card.now index.now × (b < NONE) }
    ensures { Housed g card.now b result }
{
    let at = checks::find(g, card, index, b);
    if at < g.blocks as usize {
        let e = checks::entry_of(g, card, at);
        return Home {
            entry: at as u8,
            previous: replaced(e),
        };
    }
    Home {
        entry: 255,
        previous: 256,
    }
}

// For each number of a commit where it is cached.
pub fn find_homes(
    g: Geometry,
    card: &[u8],
    index: &[u8; 640],
    numbers: &[u64],
    entries: &mut [u8; 128],
    previous: &mut [u16; 128],
)
    requires { Indexed g card.now index.now × (numbers_fit g numbers.now ≡ true) × (length numbers.now ≤ 128) × (length entries.old ≡ 128) × (length previous.old ≡ 128) }
    ensures { Homes g card.now numbers.now entries.new previous.new }
{
    for (i, b) in numbers.iter().enumerate() {
        let h = home_of(g, card, index, *b);
        entries[i] = h.entry;
        previous[i] = h.previous;
    }
}

// Each of the first n numbers that is not cached gets the next unused entry of the walk from `start`.
fn house(g: Geometry, card: &[u8], start: usize, n: usize, entries: &mut [u8; 128])
    requires { Fitted g card.now × (start ≡ search_start g card.now) × (start < g.blocks) × (n ≤ 128) × (n ≤ length (unused_entries g card.now)) × (length entries.old ≡ 128) }
    ensures { Lists (housed_at g card.now entries.old) entries.new n }
{
    let mut walked = 0;
    for entry in &mut entries[..n] {
        if 128 <= *entry {
            let j = next_unused(g, card, start, walked);
            *entry = place_after(g, start, j) as u8;
            walked = j + 1;
        }
    }
}

// The map with the bits of the first n previous blocks cleared: a finished commit gives them up. FRESH is no block.
pub fn release(map: Map, previous: &[u16; 128], n: usize) -> Map
    requires { n ≤ 128 }
    ensures { (p : ℕ → Bool) → map ≡ map_by p → result ≡ map_by (released p previous.now n) }
{
    let mut left = map;
    for p in &previous[..n] {
        if *p < 256 {
            left = freemap::without(left, usize::from(*p % 128));
        }
    }
    left
}

// 8 to 14 and 17, where `free` blocks are free.
fn save_refusal(g: Geometry, free: u64, numbers: &[u64], size: usize, room: usize) -> u8
    requires { good_geometry g ≡ true }
    ensures { (c : List ℕ) → free ≡ free_count (map_by (is_marked g c)) → result ≡ sized_refusal g c numbers.now size room }
{
    let refusal = request_refusal(g, numbers, size, room);
    if refusal != 0 {
        return refusal;
    }
    if free < numbers.len() as u64 { 14 } else { 0 }
}

// 4 to 17 of a card that fits, and the index of its numbers. Each entry is read once, for the checks and for the plan.
fn examine(
    f: Fit,
    card: &[u8],
    map: Map,
    numbers: &[u64],
    size: usize,
    room: usize,
    index: &mut [u8; 640],
) -> u8
    requires { Framed card.now f × Blank index.old }
    ensures { Examined f.geometry card.now map numbers.now size room index.new result }
{
    let v = checks::examine(f, card, index);
    if v.refusal != 0 {
        return v.refusal;
    }
    if map != v.map {
        return 15;
    }
    save_refusal(f.geometry, v.free, numbers, size, room)
}

// What a commit is told before it is planned: its refusal, and where there is none the card's geometry and Head. The byte stands last: before the
// geometry it makes the compiler copy the struct a byte off its fields' places, and wait for what was just stored there.
#[derive(Clone, Copy)]
pub struct Admitted {
    pub geometry: Geometry,
    pub head: u64,
    pub refusal: u8,
}

// All of the refusals of a commit of `size` bytes with a choice of this room, and where there is none the index of the card's numbers, for the plan.
pub fn admit(
    card: &[u8],
    map: Map,
    numbers: &[u64],
    size: usize,
    room: usize,
    index: &mut [u8; 640],
) -> Admitted
    requires { Blank index.old }
    ensures { Admission card.now map numbers.now size room index.new result }
{
    let f = ring::fit_of(card, 2, 2);
    if f.refusal != 0 {
        return Admitted {
            refusal: f.refusal,
            geometry: f.geometry,
            head: 0,
        };
    }
    let refusal = examine(f, card, map, numbers, size, room, index);
    Admitted {
        refusal,
        geometry: f.geometry,
        head: f.head,
    }
}

// What a call on card and disk goes on from: its refusal, and where there is none the card's geometry, its Head and how many data blocks are free.
#[derive(Clone, Copy)]
pub struct Basis {
    pub refusal: u8,
    pub geometry: Geometry,
    pub head: u64,
    pub free: u64,
}

pub fn stopped(g: Geometry, refusal: u8) -> Basis
    ensures { result.refusal ≡ refusal }
{
    Basis {
        refusal,
        geometry: g,
        head: 0,
        free: 0,
    }
}

// 1 to 7, 15, and 16 unless the table is arranged; and the index of the card's numbers, so that no search decodes the entries again.
pub fn meet(card: &[u8], disk: &[u8], map: Map, arranged: bool, index: &mut [u8; 640]) -> Basis
    requires { Blank index.old }
    ensures { Met card.now disk.now map arranged index.new result }
{
    let f = ring::fit_of(card, 2, 2);
    let g = f.geometry;
    if f.refusal != 0 {
        return stopped(g, f.refusal);
    }
    let other = ring::disk_refusal(g, disk);
    if other != 0 {
        return stopped(g, other);
    }
    let w = checks::examine(f, card, index);
    if w.refusal != 0 {
        return stopped(g, w.refusal);
    }
    if map != w.map {
        return stopped(g, 15);
    }
    if !arranged {
        return stopped(g, 16);
    }
    Basis {
        refusal: 0,
        geometry: g,
        head: f.head,
        free: w.free,
    }
}

// The plan of a commit that is not refused, from Tail and where its numbers are cached: for each block its entry's place, its previous and its new
// data block, and the map once it is made.
pub fn plan_of(
    g: Geometry,
    card: &[u8],
    tail: u64,
    map: Map,
    numbers: &[u64],
    entries: &mut [u8; 128],
    previous: &[u16; 128],
    blocks: &mut [u8; 128],
) -> Map
    requires { Plannable g card.now tail map numbers.now × Homes g card.now numbers.now entries.old previous.now × (length blocks.old ≡ 128) }
    ensures { Planned g card.now numbers.now entries.new previous.now blocks.new result }
{
    let start = search_start(g, tail);
    let n = numbers.len();
    let taken = freemap::take(map, start, n, blocks);
    house(g, card, start, n, entries);
    release(taken, previous, n)
}

// A plan as a whole: for each block its entry's place, what it replaces, and its new data block.
#[derive(Clone, Copy)]
pub struct Plan {
    pub entries: [u8; 128],
    pub previous: [u16; 128],
    pub blocks: [u8; 128],
}

// A plan of nothing yet.
pub const EMPTY: Plan = Plan {
    entries: [0; 128],
    previous: [0; 128],
    blocks: [0; 128],
};

// What a commit comes to: refused, or planned.
#[derive(Clone, Copy)]
pub struct Saving {
    pub refusal: u8,
    pub plan: Plan,
}

pub fn unplanned(refusal: u8) -> Saving
    ensures { result.refusal ≡ refusal }
{
    Saving {
        refusal,
        plan: EMPTY,
    }
}

// What a commit of `size` bytes, with a choice that fits, comes to on the card at entry: its refusal, and where there is none its plan.
pub fn prepare(card: &[u8], map: Map, numbers: &[u64], size: usize) -> Saving
    ensures { Prepared card.now map numbers.now size result }
{
    let mut index = [0u8; 640];
    let a = admit(card, map, numbers, size, 512, &mut index);
    if a.refusal != 0 {
        return unplanned(a.refusal);
    }
    let mut plan = EMPTY;
    find_homes(
        a.geometry,
        card,
        &index,
        numbers,
        &mut plan.entries,
        &mut plan.previous,
    );
    plan_of(
        a.geometry,
        card,
        a.head,
        map,
        numbers,
        &mut plan.entries,
        &plan.previous,
        &mut plan.blocks,
    );
    Saving { refusal: 0, plan }
}

// m, the count of stores of a commit of n blocks.
pub fn count_of(g: Geometry, n: usize) -> u64
    requires { (good_geometry g ≡ true) × (n < g.slots) }
    ensures { result ≡ n * (block_size g / 8 + 4) + 1 }
{
    codec::block_offset(g, n as u64) / 8 + 4 * n as u64 + 1
}
