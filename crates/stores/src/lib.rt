// Runs of stores made one after the other under a credit, and the rest of it handed on. Where it is 0 nothing is made, so that no caller asks
// where the cut falls.
#![tactic(auto)]

ghost use Rattle.std.specs.Prelude.{◌≡◌, List, [], ◌∷◌, true, cond, ℕ, ◌+◌, ◌*◌, ◌/◌, ◌%◌, ◌^◌, ◌≤◌, ◌<◌, min, length, ltb};
ghost use Rattle.numbers.specs.Bytes.{part};
ghost use Rattle.protocol.specs.Layout.{good_geometry, block_size, entry_place, block_place, disk_place};
ghost use Rattle.protocol.specs.Entry.{entry_bytes};
ghost use Rattle.protocol.specs.Map.{handed_on};
ghost use Rattle.protocol.specs.Store.{Medium, made_on, chosen, units, single, word_store};
ghost use Rattle.stores.specs.Did.{Did, card_store, unfenced};
ghost use Rattle.stores.specs.Told.{told, Placed};

use protocol::{Answer, Entry, Geometry, Map, Stored};

// What a call that makes runs has to go on with: one more than the stores that still happen, and 0 where a store is missing already, after which
// nothing is made. A call of at most `most` stores never needs more than that.
pub fn credit(most: u64, allowance: u64) -> u64
    requires { most < 18446744073709551615 }
    ensures { result ≡ min most allowance + 1 }
{
    if allowance < most {
        allowance + 1
    } else {
        most + 1
    }
}

// The word v at byte `at` of the card.
pub fn make_word(s: &mut [u8], at: usize, v: u64, left: u64) -> u64
    requires { at + 8 ≤ length s.old }
    ensures { (ch : List ℕ) → Did Medium.card (single (word_store at v)) ch left s.old s.new result }
{
    if left < 2 {
        return 0;
    }
    numbers::put(s, at, 8, v);
    left - 1
}

// The entry e at byte `at` of the card, an entry's place. Its bytes are staged, so that one move of sixteen bytes stores them. They are put at
// at % 16, which is 0, and the compiler does not know it: of bytes put at a place that it knows it would store each by itself.
pub fn make_entry(s: &mut [u8], at: usize, e: Entry, left: u64) -> u64
    requires { (at + 16 ≤ length s.old) × (at % 16 ≡ 0) }
    ensures { (ch : List ℕ) → Did Medium.card (single (card_store at (entry_bytes e))) ch left s.old s.new result }
{
    if left < 2 {
        return 0;
    }
    let mut staged = [0u8; 32];
    codec::put_entry(&mut staged, at % 16, e);
    numbers::copy(s, at, &staged, 0, 16);
    left - 1
}

// The first sixteen staged bytes at byte `at` of the card.
pub fn make_staged(s: &mut [u8], at: usize, staged: &[u8], left: u64) -> u64
    requires { (at + 16 ≤ length s.old) × (16 ≤ length staged.now) }
    ensures { (ch : List ℕ) → Did Medium.card (single (card_store at (part staged.now 0 16))) ch left s.old s.new result }
{
    if left < 2 {
        return 0;
    }
    numbers::copy(s, at, staged, 0, 16);
    left - 1
}

// Of `count` units of 2 ^ `places` bytes side by side those whose byte of the choice is 1.
fn make_chosen(
    dst: &mut [u8],
    to: usize,
    src: &[u8],
    from: usize,
    places: u64,
    count: usize,
    choice: &[u8],
)
    requires { (places ≤ 9) × (count ≤ 512) × (to + count * 2 ^ places ≤ length dst.old) × (from + count * 2 ^ places ≤ length src.now) × (count ≤ length choice.now) }
    ensures { (m : Medium) → dst.new ≡ made_on m (chosen choice.now (units m (2 ^ places) count to (part src.now from (count * 2 ^ places)))) dst.old }
{
    for (i, chosen) in choice[..count].iter().enumerate() {
        if *chosen == 1 {
            let past = i << places;
            numbers::copy(dst, to + past, src, from + past, 1 << places);
        }
    }
}

// An unordered run: `count` units of 2 ^ `places` bytes side by side from byte `to` of dst, with the bytes of src from `from` on. All of them where
// the credit covers them, which is one copy; of a run in which the power fails the chosen ones, as many as they are.
fn make_units(
    dst: &mut [u8],
    to: usize,
    src: &[u8],
    from: usize,
    places: u64,
    count: usize,
    choice: &[u8],
    left: u64,
) -> u64
    requires { (places ≤ 9) × (count ≤ 512) × (to + count * 2 ^ places ≤ length dst.old) × (from + count * 2 ^ places ≤ length src.now) × (count ≤ length choice.now) }
    ensures { (m : Medium) → Did m (unfenced (units m (2 ^ places) count to (part src.now from (count * 2 ^ places))) ∷ []) choice.now left dst.old dst.new result }
{
    if (count as u64) < left {
        numbers::copy(dst, to, src, from, count << places);
        return left - count as u64;
    }
    if left != 0 {
        make_chosen(dst, to, src, from, places, count, choice);
    }
    0
}

// The words of a data block, at byte `to` of the card, with the bytes of src from `from` on.
pub fn make_words(
    g: Geometry,
    card: &mut [u8],
    to: usize,
    src: &[u8],
    from: usize,
    choice: &[u8],
    left: u64,
) -> u64
    requires { (good_geometry g ≡ true) × (to + block_size g ≤ length card.old) × (from + block_size g ≤ length src.now) × (block_size g / 8 ≤ length choice.now) }
    ensures { Did Medium.card (unfenced (units Medium.card 8 (block_size g / 8) to (part src.now from (block_size g))) ∷ []) choice.now left card.old card.new result }
{
    let count = codec::block_size(g) / 8;
    make_units(card, to, src, from, 3, count as usize, choice, left)
}

// A run of a call's list: the words of a data block, at a place of the card and from an offset of the data; the sectors of a disk block, at a place
// of the disk and from a place of the card; an entry or a word at a place of the card; or nothing, where a list leaves a place out.
#[derive(Clone, Copy)]
pub enum Run {
    Nothing,
    Words(usize, usize),
    Sectors(usize, usize),
    Entry(usize, Entry),
    Word(usize, u64),
}

// Makes the run as far as the credit goes, and hands on what is left of it: the rule on cuts, for every call.
pub fn make_run(
    g: Geometry,
    card: &mut [u8],
    disk: &mut [u8],
    data: &[u8],
    run: Run,
    choice: &[u8],
    left: u64,
) -> u64
    requires { (good_geometry g ≡ true) × Placed g run (length card.old) (length disk.old) (length «data».now) (length choice.now) }
    ensures card { Did Medium.card (told g run «data».now card.old) choice.now left card.old card.new result }
    ensures disk { Did Medium.disk (told g run «data».now card.old) choice.now left disk.old disk.new result }
{
    match run {
        Run::Nothing => left,
        Run::Words(to, from) => make_words(g, card, to, data, from, choice, left),
        Run::Sectors(to, from) => {
            let count = codec::block_size(g) / 512;
            make_units(disk, to, card, from, 9, count as usize, choice, left)
        }
        Run::Entry(at, e) => make_entry(card, at, e, left),
        Run::Word(at, v) => make_word(card, at, v, left),
    }
}

// The place of entry i; past the last entry, where the data blocks begin.
pub fn entry_place(g: Geometry, i: usize) -> usize
    requires { (good_geometry g ≡ true) × (i ≤ g.blocks) }
    ensures { result ≡ entry_place g i }
{
    128 + 8 * g.slots as usize + 16 * i
}

// The place of data block p on the card.
pub fn block_place(g: Geometry, p: u64) -> usize
    requires { (good_geometry g ≡ true) × (p < g.blocks) }
    ensures { result ≡ block_place g p }
{
    entry_place(g, g.blocks as usize) + codec::block_offset(g, p) as usize
}

// The place of block b on the disk.
pub fn disk_place(g: Geometry, b: u64) -> usize
    requires { (good_geometry g ≡ true) × (b < g.disk) }
    ensures { result ≡ disk_place g b }
{
    codec::block_offset(g, b) as usize
}

// The answer to a call that was not refused and has `count` stores.
pub fn answer(count: u64, allowance: u64) -> Answer
    ensures { result ≡ cond (ltb allowance count) Answer.Cut (Answer.Done count) }
{
    if allowance < count {
        Answer::Cut
    } else {
        Answer::Done(count)
    }
}

// What a storing call hands back: the new map where all its stores were made, and otherwise the map that it got.
pub fn hand_on(answer: Answer, old: Map, new: Map) -> Stored
    ensures { (result.answer ≡ answer) × (result.map ≡ handed_on answer old new) }
{
    let map = match answer {
        Answer::Done(_) => new,
        Answer::Cut => old,
        Answer::Refused(_) => old,
    };
    Stored { answer, map }
}
