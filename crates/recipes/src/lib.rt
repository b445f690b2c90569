// Recipes above the cache: save, remove and fetch, over the room-making commit and what a read tells. No byte of the card is looked at here.
#![tactic(auto)]

ghost use Rattle.std.specs.Prelude.{◌≡◌, true, List, ℕ, ◌+◌, ◌*◌, ◌≤◌, ◌<◌, length, replicate};
ghost use Rattle.numbers.specs.Bytes.{part, patch};
ghost use Rattle.protocol.specs.Layout.{good_geometry, geometry_of, block_size, disk_place};
ghost use Rattle.protocol.specs.Check.{refuse, ◌or_else◌};
ghost use Rattle.protocol.specs.Load.{pair_refusal};
ghost use Rattle.protocol.specs.Room.{room_work, table_after_save};
ghost use Rattle.transfer.specs.Moved.{Finished};
ghost use Rattle.recipe.specs.Record.{recipe_from, good_recipe};
ghost use Rattle.recipe.specs.Shelf.{in_range, blocks_of};
ghost use Rattle.recipe.specs.Calls.{save_refusal, saved_numbers, saved_bytes, save_work, remove_refusal, remove_work, table_after_recipe, table_after_remove, fetched, fetched_output};
ghost use Rattle.recipes.specs.Reach.{Filled, Asked, Ranged, Window, Found4, held_in, Reached, Reachable, record_in};

use lookup::Found;
use protocol::{Answer, Geometry, Map, Stored};
use recipe::Fetched;

// The number of the recipe's first block; of a recipe past every disk, one that no disk has.
fn first_block(recipe: u64) -> u64
    ensures { (recipe < 16384 → result ≡ 4 * recipe) × (16384 ≤ recipe → result ≡ 65536) }
{
    if recipe < 16384 { 4 * recipe } else { 65536 }
}

// Whether all four of the recipe's blocks are the disk's.
fn in_range(g: Geometry, recipe: u64) -> bool
    requires { good_geometry g ≡ true }
    ensures { result ≡ in_range g recipe }
{
    first_block(recipe) + 3 < g.disk
}

// How many blocks a record fills, and their bytes.
#[derive(Clone, Copy)]
pub struct Fill {
    pub blocks: usize,
    pub bytes: usize,
}

// The fewest blocks of `size` bytes that hold a record of n bytes: three at most, so no product and no quotient is needed.
fn fill_of(size: usize, n: usize) -> Fill
    requires { (512 ≤ size) × (size ≤ 4096) × (0 < n) × (n ≤ 1528) }
    ensures { Filled size n result }
{
    if n <= size {
        return Fill {
            blocks: 1,
            bytes: size,
        };
    }
    if n <= size + size {
        return Fill {
            blocks: 2,
            bytes: size + size,
        };
    }
    Fill {
        blocks: 3,
        bytes: size + size + size,
    }
}

// What a save asks before its commit: a refusal, or none and the geometry.
#[derive(Clone, Copy)]
pub struct Own {
    pub refusal: u8,
    pub geometry: Geometry,
}

// 1 to 7 of a card and its disk, or else r.
fn pair_or(card: &[u8], disk: &[u8], r: u8) -> u8
    ensures { result ≡ pair_refusal 2 card.now disk.now or_else r }
{
    match lookup::find(card, disk, 0) {
        Found::Refused(x) => x,
        _ => r,
    }
}

// 1, 2 and 19, and 3 to 7 where 19 would be given. Where it would not, the commit asks 3 to 7, and the card is walked once.
fn ask(
    card: &[u8],
    disk: &[u8],
    recipe: u64,
    name: &[u8],
    count: u64,
    ingredients: &[u16],
    grams: &[u32],
) -> Own
    ensures { Asked card.now disk.now recipe (recipe_from name.now count ingredients.now grams.now) result }
{
    let f = ring::fit_of(card, 2, 2);
    let geometry = f.geometry;
    if f.refusal != 0 {
        return Own {
            refusal: f.refusal,
            geometry,
        };
    }
    if !in_range(geometry, recipe) {
        return Own {
            refusal: pair_or(card, disk, 19),
            geometry,
        };
    }
    if !recipe_codec::good_recipe(name, count, ingredients, grams) {
        return Own {
            refusal: pair_or(card, disk, 19),
            geometry,
        };
    }
    Own {
        refusal: 0,
        geometry,
    }
}

// The record in its blocks, zeros behind it, as one room-making commit.
fn commit_record(
    g: Geometry,
    card: &mut [u8],
    disk: &mut [u8],
    map: Map,
    table: &mut [u8],
    recipe: u64,
    name: &[u8],
    ingredients: &[u16],
    grams: &[u32],
    choice: &[u8],
    allowance: u64,
) -> Stored
    requires { (good_geometry g ≡ true) × (save_refusal g recipe (recipe_from name.now (length ingredients.now) ingredients.now grams.now) ≡ 0) }
    ensures media { Finished (room_work 2 card.old disk.old map table.old (saved_numbers g recipe (recipe_from name.now (length ingredients.now) ingredients.now grams.now)) (saved_bytes g (recipe_from name.now (length ingredients.now) ingredients.now grams.now)) choice.now) allowance map card.old card.new disk.old disk.new result }
    ensures table { table.new ≡ table_after_save allowance card.old disk.old map table.old (saved_numbers g recipe (recipe_from name.now (length ingredients.now) ingredients.now grams.now)) (saved_bytes g (recipe_from name.now (length ingredients.now) ingredients.now grams.now)) choice.now }
{
    let mut staged = [0u8; 4096];
    let n = recipe_codec::write(&mut staged, name, ingredients, grams);
    let s = fill_of(codec::block_size(g) as usize, n);
    let first = first_block(recipe);
    let numbers = [first, first + 1, first + 2, first + 3];
    room::commit(
        card,
        disk,
        map,
        table,
        &numbers[..s.blocks],
        &staged[..s.bytes],
        choice,
        allowance,
    )
}

// Saves a recipe of `count` ingredients, with their numbers and grams, as one room-making commit of the fewest blocks that hold its record.
// `allowance` stores still happen. Refused before any store: 1 to 7, 19, 15 to 17, 14.
pub fn save(
    card: &mut [u8],
    disk: &mut [u8],
    map: Map,
    table: &mut [u8],
    recipe: u64,
    name: &[u8],
    count: u64,
    ingredients: &[u16],
    grams: &[u32],
    choice: &[u8],
    allowance: u64,
) -> Stored
    ensures media { Finished (save_work 2 card.old disk.old map table.old recipe (recipe_from name.now count ingredients.now grams.now) choice.now) allowance map card.old card.new disk.old disk.new result }
    ensures table { table.new ≡ table_after_recipe allowance card.old disk.old map table.old recipe (recipe_from name.now count ingredients.now grams.now) choice.now }
{
    let o = ask(card, disk, recipe, name, count, ingredients, grams);
    if o.refusal != 0 {
        return stores::hand_on(Answer::Refused(o.refusal), map, map);
    }
    commit_record(
        o.geometry,
        card,
        disk,
        map,
        table,
        recipe,
        name,
        ingredients,
        grams,
        choice,
        allowance,
    )
}

// Where a recipe's four blocks stand on the disk.
#[derive(Clone, Copy)]
pub struct Span {
    pub from: usize,
    pub bytes: usize,
}

// Where the recipe's four blocks stand on the disk, and how many bytes they have; none where the card is refused with 1 or 2, or the recipe is out
// of range.
pub fn disk_span(card: &[u8], recipe: u64) -> Span
    ensures { Ranged card.now recipe result }
{
    let f = ring::fit_of(card, 2, 2);
    if f.refusal != 0 {
        return Span { from: 0, bytes: 0 };
    }
    let g = f.geometry;
    if !in_range(g, recipe) {
        return Span { from: 0, bytes: 0 };
    }
    Span {
        from: codec::block_offset(g, first_block(recipe)) as usize,
        bytes: 4 * (codec::block_size(g) as usize),
    }
}

// The recipe's four blocks as a part of the disk, or an empty part.
fn window<'a>(card: &[u8], disk: &'a [u8], recipe: u64) -> &'a [u8]
    ensures { Window card.now disk.now (length disk.now) recipe result.now }
{
    let r = disk_span(card, recipe);
    let end = r.from + r.bytes;
    if disk.len() < end {
        return &disk[..0];
    }
    &disk[r.from..end]
}

// Where a recipe's blocks lie: refused, or found, with B.
#[derive(Clone, Copy)]
pub struct Place {
    pub refusal: u8,
    pub size: usize,
    pub extent: [Found; 4],
}

// 1 to 7 and 19, and where none is given where the recipe's blocks lie. One pass over the card's entries serves them all.
fn find(card: &[u8], long: u64, recipe: u64) -> Place
    ensures { Found4 card.now long recipe result }
{
    let extent = extent::find(card, long, first_block(recipe));
    match extent[3] {
        Found::Refused(r) => Place {
            refusal: r,
            size: 0,
            extent,
        },
        Found::Outside(_) => Place {
            refusal: 19,
            size: 0,
            extent,
        },
        Found::Card(_, size, _) | Found::Disk(_, size) => Place {
            refusal: 0,
            size,
            extent,
        },
    }
}

// The block that was found: a part of the card, or of the window of the disk from `at` on.
fn block_of<'a>(card: &'a [u8], four: &'a [u8], at: usize, f: Found) -> &'a [u8]
    requires { (size : ℕ) × Reached card.now four.now at size f }
    ensures { result.now ≡ held_in card.now four.now at f }
{
    match f {
        Found::Card(p, n, _) => &card[p..p + n],
        Found::Disk(_, n) => &four[at..at + n],
        _ => &card[..0],
    }
}

// The record of n bytes, block by block, to the front of the output.
fn copy_record(card: &[u8], four: &[u8], size: usize, e: [Found; 4], n: usize, out: &mut [u8])
    requires { Reachable card.now four.now size e × (512 ≤ size) × (0 < n) × (n ≤ 1528) × (n ≤ length out.old) }
    ensures { out.new ≡ patch out.old 0 (record_in card.now four.now size e n) }
{
    let mut at: usize = 0;
    for f in e {
        let block = block_of(card, four, at, f);
        if n - at <= size {
            numbers::copy(out, at, block, 0, n - at);
            return;
        }
        numbers::copy(out, at, block, 0, size);
        at += size;
    }
}

// Fetches a recipe from a card and the four blocks of the disk that are the recipe's, of a disk of `long` bytes: a program that does not hold the disk
// in memory reads these alone (`disk_span`).
pub fn fetch_from<'a>(
    card: &'a [u8],
    long: u64,
    four: &'a [u8],
    recipe: u64,
    out: &mut [u8],
) -> Fetched
    ensures answer { (d : List ℕ) → Window card.now d long recipe four.now → result ≡ fetched card.now d recipe out.old }
    ensures output { (d : List ℕ) → Window card.now d long recipe four.now → out.new ≡ fetched_output card.now d recipe out.old }
{
    let p = find(card, long, recipe);
    if p.refusal != 0 {
        return Fetched::Refused(p.refusal);
    }
    let size = p.size;
    if four.len() != 4 * size {
        return Fetched::Refused(3);
    }
    let first = block_of(card, four, 0, p.extent[0]);
    let own = recipe_codec::block_refusal(first);
    if own != 0 {
        return Fetched::Refused(own);
    }
    if out.len() != 1528 {
        return Fetched::Refused(9);
    }
    let n = recipe_codec::length_in(first);
    copy_record(card, four, size, p.extent, n, out);
    Fetched::Is(n as u64)
}

// Puts the recipe's record at the front of an output of 1,528 bytes and tells its length. Refused: 1 to 7, 19 to 21, 9.
pub fn fetch<'a>(card: &'a [u8], disk: &'a [u8], recipe: u64, out: &mut [u8]) -> Fetched
    ensures answer { result ≡ fetched card.now disk.now recipe out.old }
    ensures output { out.new ≡ fetched_output card.now disk.now recipe out.old }
{
    let four = window(card, disk, recipe);
    fetch_from(card, disk.len() as u64, four, recipe, out)
}

// What a remove comes to: refused, or to be made, with B.
#[derive(Clone, Copy)]
pub struct Removal {
    pub refusal: u8,
    pub size: usize,
}

// 1 to 7, 19 and 20.
fn ask_removal<'a>(card: &'a [u8], disk: &'a [u8], recipe: u64) -> Removal
    ensures { (result.refusal ≡ pair_refusal 2 card.now disk.now or_else remove_refusal (geometry_of card.now) card.now disk.now recipe) × (result.refusal ≡ 0 → result.size ≡ block_size (geometry_of card.now)) }
{
    let p = find(card, disk.len() as u64, recipe);
    if p.refusal != 0 {
        return Removal {
            refusal: p.refusal,
            size: 0,
        };
    }
    let block = lookup::look(card, disk, first_block(recipe));
    if recipe_codec::is_blank(block) {
        return Removal {
            refusal: 20,
            size: 0,
        };
    }
    Removal {
        refusal: 0,
        size: p.size,
    }
}

// Removes a recipe: its first block becomes zeros, by a room-making commit of that block alone. Refused before any store: 1 to 7, 19, 20, 15 to 17, 14.
pub fn remove(
    card: &mut [u8],
    disk: &mut [u8],
    map: Map,
    table: &mut [u8],
    recipe: u64,
    choice: &[u8],
    allowance: u64,
) -> Stored
    ensures media { Finished (remove_work 2 card.old disk.old map table.old recipe choice.now) allowance map card.old card.new disk.old disk.new result }
    ensures table { table.new ≡ table_after_remove allowance card.old disk.old map table.old recipe choice.now }
{
    let o = ask_removal(card, disk, recipe);
    if o.refusal != 0 {
        return stores::hand_on(Answer::Refused(o.refusal), map, map);
    }
    let zeros = [0u8; 4096];
    room::commit(
        card,
        disk,
        map,
        table,
        &[first_block(recipe)],
        &zeros[..o.size],
        choice,
        allowance,
    )
}
