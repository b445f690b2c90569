// A recipe's record in bytes: written from its fields, and looked at where one is said to stand.
#![tactic(auto)]

ghost use Rattle.std.specs.Prelude.{◌≡◌, true, ◌++◌, ◌+◌, ◌*◌, ◌≤◌, length};
ghost use Rattle.numbers.specs.Bytes.{bytes_be, patch};
ghost use Rattle.protocol.specs.Below.{each_below};
ghost use Rattle.protocol.specs.Layout.{between};
ghost use Rattle.recipe.specs.Record.{recipe_from, good_name, good_recipe, good_record, record_length, record_bytes, count_in, line_bytes};
ghost use Rattle.recipe.specs.Shelf.{is_blank};
ghost use Rattle.recipe_codec.specs.Front.{front_bytes, block_refusal};

fn is_printable(x: u8) -> bool
    ensures { result ≡ between 32 126 x }
{
    (32 <= x) & (x <= 126)
}

// Whether the name has 24 bytes, all of them printable.
fn good_name(name: &[u8]) -> bool
    ensures { result ≡ good_name name.now }
{
    name.len() == 24 && name.iter().all(|x| is_printable(*x))
}

// Whether the fields are a recipe's: not 19, but for its number.
pub fn good_recipe(name: &[u8], count: u64, ingredients: &[u16], grams: &[u32]) -> bool
    ensures { result ≡ good_recipe (recipe_from name.now count ingredients.now grams.now) }
{
    let lines = (ingredients.len() as u64 == count) & (grams.len() as u64 == count);
    (count <= 250) & (lines & good_name(name))
}

// A record's whole length, with c lines.
pub fn record_length(c: usize) -> usize
    requires { c ≤ 255 }
    ensures { result ≡ record_length c }
{
    28 + 4 * c + 2 * c
}

// Length, version, count and name.
fn put_front(staged: &mut [u8], name: &[u8], c: u8)
    requires { (28 ≤ length staged.old) × (length name.now ≡ 24) }
    ensures { staged.new ≡ patch staged.old 0 (front_bytes name.now c) }
{
    let long = record_length(c as usize);
    numbers::put(staged, 0, 2, long as u64);
    staged[2] = 1;
    staged[3] = c;
    numbers::copy(staged, 4, name, 0, 24);
}

// One line, of an ingredient's number and its grams.
fn put_line(staged: &mut [u8], at: usize, ingredient: u16, grams: u32)
    requires { at + 6 ≤ length staged.old }
    ensures { staged.new ≡ patch staged.old at (bytes_be 2 ingredient ++ bytes_be 4 grams) }
{
    numbers::put(staged, at, 2, ingredient as u64);
    numbers::put(staged, at + 2, 4, grams as u64);
}

// All lines.
fn put_lines(staged: &mut [u8], name: &[u8], ingredients: &[u16], grams: &[u32])
    requires { (28 + 6 * length ingredients.now ≤ length staged.old) × (length grams.now ≡ length ingredients.now) }
    ensures { staged.new ≡ patch staged.old 28 (each_below (line_bytes (recipe_from name.now (length ingredients.now) ingredients.now grams.now)) (length ingredients.now)) }
{
    let mut at = 28;
    for (ingredient, weight) in ingredients.iter().zip(grams) {
        put_line(staged, at, *ingredient, *weight);
        at += 6;
    }
}

// Writes the record of a recipe to the front of the staging array, and tells its length.
pub fn write(staged: &mut [u8], name: &[u8], ingredients: &[u16], grams: &[u32]) -> usize
    requires { (1528 ≤ length staged.old) × (good_recipe (recipe_from name.now (length ingredients.now) ingredients.now grams.now) ≡ true) }
    ensures length { result ≡ record_length (length ingredients.now) }
    ensures bytes { staged.new ≡ patch staged.old 0 (record_bytes (recipe_from name.now (length ingredients.now) ingredients.now grams.now)) }
{
    let c = ingredients.len();
    put_front(staged, name, c as u8);
    put_lines(staged, name, ingredients, grams);
    record_length(c)
}

// Whether every byte is zero.
pub fn is_blank(block: &[u8]) -> bool
    ensures { result ≡ is_blank block.now }
{
    block.iter().all(|x| *x == 0)
}

// Whether the first block of a recipe begins as a record does: not 21.
fn good_record(block: &[u8]) -> bool
    requires { 28 ≤ length block.now }
    ensures { result ≡ good_record block.now }
{
    let c = block[3] as usize;
    let long = numbers::get(block, 0, 2) == record_length(c) as u64;
    let version = block[2] == 1;
    let count = c <= 250;
    long & (version & (count & good_name(&block[4..28])))
}

// 20 of a first block of zeros, 21 of one that breaks the layout.
pub fn block_refusal(block: &[u8]) -> u8
    requires { 28 ≤ length block.now }
    ensures { result ≡ block_refusal block.now }
{
    if is_blank(block) {
        return 20;
    }
    if !good_record(block) {
        return 21;
    }
    0
}

// The length of the record that begins so.
pub fn length_in(block: &[u8]) -> usize
    requires { 28 ≤ length block.now }
    ensures { result ≡ record_length (count_in block.now) }
{
    record_length(block[3] as usize)
}
