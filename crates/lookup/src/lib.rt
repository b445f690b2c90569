// State, read, look and the list of what is cached: what a card and its disk hold, at every input, however damaged.
#![tactic(auto)]

ghost use Rattle.std.specs.Prelude.{◌≡◌, true, List, ℕ, ◌+◌, ◌≤◌, ◌<◌, length};
ghost use Rattle.protocol.specs.Below.{count_below};
ghost use Rattle.protocol.specs.Recency.{is_arranged};
ghost use Rattle.protocol.specs.Read.{held_after, held_by, recent_held, output_after, recent_output, recent_table, looked_at, modified_at, condition_of, state_of};
ghost use Rattle.lookup.specs.Place.{Copied, place_in, sought_at, found_in, found_at, fetched_by, fetched_at, recent_at, touched_by, untabled};
ghost use Rattle.ring.specs.Fitted.{Fitted, Placed, WindowOf, Framed};
ghost use Rattle.checks.specs.Passed.{Indexed};
ghost use Rattle.lookup.specs.Cached.{cached_in, cached_at};
ghost use Rattle.protocol.specs.Ring.{used_at, undoable_at, is_settled};

use protocol::{Condition, Geometry, Held, Reported, State};
use ring::{Fit, Window};

// Where a block lies: refused by checks 1 to 7, outside the disk, or at a place of the card or of the disk; with it B, if known, and on the card
// the place of its entry.
#[derive(Clone, Copy)]
pub enum Found {
    Refused(u8),
    Outside(usize),
    Card(usize, usize, usize),
    Disk(usize, usize),
}

// What an entry caches: a block's number and whether it is modified, nothing, or refused by checks 1, 2 and 4 to 7.
#[derive(Clone, Copy)]
pub enum Cached {
    Block(u64, bool),
    Nothing,
    Refused(u8),
}

// Where disk block b lies on a card whose numbers are indexed.
pub fn locate(g: Geometry, card: &[u8], index: &[u8; 640], b: u64) -> Found
    requires { Indexed g card.now index.now × (b < g.disk) }
    ensures { result ≡ place_in g card.now b }
{
    let size = codec::block_size(g) as usize;
    let i = checks::find(g, card, index, b);
    if i < g.blocks as usize {
        let e = checks::entry_of(g, card, i);
        Found::Card(stores::block_place(g, u64::from(e.current)), size, i)
    } else {
        Found::Disk(stores::disk_place(g, b), size)
    }
}

// The same of a card that passed checks 1 to 3. One pass over the entries serves the checks and the search.
fn seek(f: Fit, card: &[u8], b: u64) -> Found
    requires { Framed card.now f }
    ensures { result ≡ sought_at f.geometry card.now b }
{
    let mut index = [0u8; 640];
    let v = checks::examine(f, card, &mut index);
    if v.refusal != 0 {
        return Found::Refused(v.refusal);
    }
    let g = f.geometry;
    if g.disk <= b {
        return Found::Outside(codec::block_size(g) as usize);
    }
    locate(g, card, &index, b)
}

// Where disk block b lies, of a card over a disk of `long` bytes. No byte of the disk is looked at, so that a program can read the one block
// of a disk that it does not hold in memory.
pub fn find_in(card: &[u8], long: u64, b: u64) -> Found
    ensures { result ≡ found_in card.now long b }
{
    let f = ring::fit_of(card, 2, 2);
    if f.refusal != 0 {
        return Found::Refused(f.refusal);
    }
    if long != ring::disk_length(f.geometry) {
        return Found::Refused(3);
    }
    seek(f, card, b)
}

// Where disk block b lies.
pub fn find(card: &[u8], disk: &[u8], b: u64) -> Found
    ensures { result ≡ found_at card.now disk.now b }
{
    find_in(card, disk.len() as u64, b)
}

// Hands back disk block b as a part of the card or of the disk, without copying; an empty part where it is refused.
pub fn look<'a>(card: &'a [u8], disk: &'a [u8], b: u64) -> &'a [u8]
    ensures { result.now ≡ looked_at card.now disk.now b }
{
    match find(card, disk, b) {
        Found::Card(at, size, _) => &card[at..at + size],
        Found::Disk(at, size) => &disk[at..at + size],
        _ => &card[..0],
    }
}

// Copies what stands at a place to an output of that size, or leaves the output.
fn copy_out(src: &[u8], at: usize, size: usize, out: &mut [u8]) -> bool
    requires { at + size ≤ length src.now }
    ensures { Copied src.now at size out.old out.new result }
{
    if out.len() != size {
        return false;
    }
    numbers::copy(out, 0, src, at, size);
    true
}

// Copies disk block b to an output of B bytes, and tells where it lies.
pub fn fetch(card: &[u8], disk: &[u8], b: u64, out: &mut [u8]) -> Found
    ensures answer { result ≡ fetched_at card.now disk.now out.old b }
    ensures output { out.new ≡ output_after card.now disk.now out.old b }
{
    match find(card, disk, b) {
        Found::Refused(r) => Found::Refused(r),
        Found::Outside(size) => {
            if out.len() == size {
                Found::Refused(10)
            } else {
                Found::Refused(9)
            }
        }
        Found::Card(at, size, i) => {
            if copy_out(card, at, size, out) {
                Found::Card(at, size, i)
            } else {
                Found::Refused(9)
            }
        }
        Found::Disk(at, size) => {
            if copy_out(disk, at, size, out) {
                Found::Disk(at, size)
            } else {
                Found::Refused(9)
            }
        }
    }
}

// Who held the block that was fetched.
fn held(f: Found) -> Held
    ensures { (r : ℕ) (c : List ℕ) (b : ℕ) → f ≡ fetched_by r c b → result ≡ held_after r c b }
{
    match f {
        Found::Card(_, _, _) => Held::Card,
        Found::Disk(_, _) => Held::Disk,
        Found::Refused(r) => Held::Refused(r),
        Found::Outside(_) => Held::Refused(10),
    }
}

// Copies disk block b to an output of B bytes, and says whether card or disk held it. It takes no table, and is no use of the block.
pub fn read(card: &[u8], disk: &[u8], b: u64, out: &mut [u8]) -> Held
    ensures answer { result ≡ held_by card.now disk.now out.old b }
    ensures output { out.new ≡ output_after card.now disk.now out.old b }
{
    held(fetch(card, disk, b, out))
}

// The entry of a block that was fetched from the card, moved to the front of the table.
#[tactic(auto, unfolding(crate::specs::Place::touched_by))]
fn touch_found(f: Found, table: &mut [u8])
    requires { (is_arranged table.old ≡ true) × ((at n i : ℕ) → f ≡ Found.Card at n i → i < 128) }
    ensures { table.new ≡ touched_by f table.old }
{
    if let Found::Card(_, _, i) = f {
        recency::to_front(table, i as u8);
    }
}

// 16, unless one of 1 to 7 was given.
#[tactic(auto, unfolding(crate::specs::Place::untabled))]
fn refuse_table(f: Found) -> Found
    ensures { result ≡ untabled f }
{
    match f {
        Found::Refused(r) => Found::Refused(r),
        _ => Found::Refused(16),
    }
}

// `fetch` as a use of the block: where it lies on the card its entry goes to the front of the table.
pub fn fetch_recent(card: &[u8], disk: &[u8], table: &mut [u8], b: u64, out: &mut [u8]) -> Found
    ensures answer { result ≡ recent_at card.now disk.now table.old out.old b }
    ensures output { out.new ≡ recent_output card.now disk.now table.old out.old b }
    ensures table { table.new ≡ recent_table card.now disk.now table.old out.old b }
{
    if !recency::is_arranged(table) {
        return refuse_table(find(card, disk, b));
    }
    let f = fetch(card, disk, b, out);
    touch_found(f, table);
    f
}

// Document 02's read: `read` as a use of the block.
pub fn read_recent(card: &[u8], disk: &[u8], table: &mut [u8], b: u64, out: &mut [u8]) -> Held
    ensures answer { result ≡ recent_held card.now disk.now table.old out.old b }
    ensures output { out.new ≡ recent_output card.now disk.now table.old out.old b }
    ensures table { table.new ≡ recent_table card.now disk.now table.old out.old b }
{
    held(fetch_recent(card, disk, table, b, out))
}

// Whether entry i is in use.
fn is_used(g: Geometry, card: &[u8], i: usize) -> bool
    requires { Fitted g card.now × (i < g.blocks) }
    ensures { result ≡ used_at g card.now i }
{
    codec::in_use(checks::entry_of(g, card, i))
}

// Whether entry i is in use and modified.
fn is_modified(g: Geometry, card: &[u8], i: usize) -> bool
    requires { Fitted g card.now × (i < g.blocks) }
    ensures { result ≡ modified_at g card.now i }
{
    let e = checks::entry_of(g, card, i);
    codec::in_use(e) & codec::is_modified(e)
}

// How many entries are in use, and how many of these modified. By one walk over the entries: two filters, a walk each, take a quarter more of a call.
fn counts(g: Geometry, card: &[u8]) -> (u64, u64)
    requires { Fitted g card.now }
    ensures used { result.0 ≡ count_below (used_at g card.now) g.blocks }
    ensures modified { result.1 ≡ count_below (modified_at g card.now) g.blocks }
{
    let mut used = 0;
    let mut modified = 0;
    for i in 0..g.blocks as usize {
        used += u64::from(is_used(g, card, i));
        modified += u64::from(is_modified(g, card, i));
    }
    (used, modified)
}

// Whether entry i is undoable.
fn is_undoable(g: Geometry, card: &[u8], w: Window, i: usize) -> bool
    requires { Fitted g card.now × WindowOf g card.now w × (i < g.blocks) }
    ensures { result ≡ undoable_at g card.now i }
{
    checks::undoable(g, card, w, checks::entry_of(g, card, i))
}

// The condition of a card that passed checks 1 to 6.
fn condition(g: Geometry, card: &[u8], settled: bool) -> Condition
    requires { Fitted g card.now × Placed g card.now × (settled ≡ is_settled g card.now) }
    ensures { result ≡ condition_of g card.now }
{
    if settled {
        let (used, modified) = counts(g, card);
        return Condition::Settled { used, modified };
    }
    let w = ring::window_of(g, card);
    let entries = 0..g.blocks as usize;
    Condition::Unsettled {
        undoable: entries.filter(|i| is_undoable(g, card, w, *i)).count() as u64,
        window: w.count,
    }
}

// The geometry together with the card's condition.
pub fn state(card: &[u8]) -> Reported
    ensures { result ≡ state_of card.now }
{
    let fit = ring::fit_of(card, 2, 2);
    if fit.refusal != 0 {
        return Reported::Refused(fit.refusal);
    }
    let mut index = [0u8; 640];
    let v = checks::inspect(fit, card, &mut index);
    if v.refusal != 0 {
        return Reported::Refused(v.refusal);
    }
    let geometry = fit.geometry;
    let condition = condition(geometry, card, v.settled);
    Reported::Is(State {
        geometry,
        condition,
    })
}

// What entry i of a card that passed its checks caches.
fn cached_in(g: Geometry, card: &[u8], i: u64) -> Cached
    requires { Fitted g card.now }
    ensures { result ≡ cached_in g card.now i }
{
    if g.blocks <= i {
        return Cached::Nothing;
    }
    let e = checks::entry_of(g, card, i as usize);
    if !codec::in_use(e) {
        return Cached::Nothing;
    }
    Cached::Block(e.number, codec::is_modified(e))
}

// What the entry at place i of a settled card caches.
pub fn cached_at(card: &[u8], i: u64) -> Cached
    ensures { result ≡ cached_at card.now i }
{
    let f = ring::fit_of(card, 2, 2);
    if f.refusal != 0 {
        return Cached::Refused(f.refusal);
    }
    let r = checks::card_refusal(f, card);
    if r != 0 {
        return Cached::Refused(r);
    }
    cached_in(f.geometry, card, i)
}
