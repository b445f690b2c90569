// What is wrong with a refused card image, for a call that takes versions from low to high, at every row of bytes, however damaged.
#![tactic(auto)]

ghost use Rattle.std.specs.Prelude.{◌≡◌, ◌<◌, ltb};
ghost use Rattle.protocol.specs.Layout.{version_of};
ghost use Rattle.protocol.specs.Ring.{settled_block};
ghost use Rattle.protocol.specs.Check.{apart};
ghost use Rattle.ring.specs.Fitted.{Fitted, Placed, WindowOf, Framed};
ghost use Rattle.faults.specs.Fault.{geometry_fault, header_fault, window_fault, ring_fault, good_previous, entry_fault_of, entry_fault};
ghost use Rattle.faults.specs.Fault.{same_settled, pair_fault_of, first_alike, pair_fault, damage_fault, fault_of};

use protocol::{Entry, FRESH, Geometry};
use ring::{Fit, Window};

// What is wrong with a card.
#[derive(Clone, Copy)]
pub enum Fault {
    // None of 1, 2 and 4 to 6 holds.
    Sound,
    // 1: under 128 bytes, or the first header field that is not as document 01 says.
    Short,
    HeaderLength,
    Version,
    K,
    Slots,
    Blocks,
    Disk,
    Reserved,
    // 2: the length that the header asks for.
    Length(u64),
    // 4: not below S, or the position of the first slot of the window whose number is not below D.
    Head,
    Tail,
    WindowNumber(u64),
    // 5: the place of the first entry that check 5 forbids, by its first wrong field.
    Flags(u64),
    NotZero(u64),
    Number(u64),
    Current(u64),
    Previous(u64),
    // 6: the first entry that is alike to one before it, and the first such one.
    SameNumber(u64, u64),
    SameCurrent(u64, u64),
    SameSettled(u64, u64),
}

// 1: the first of k, S, N and D that is outside its limits.
pub fn geometry_fault(g: Geometry) -> Fault
    ensures { result ≡ geometry_fault g }
{
    if !codec::good_k(g.k) {
        return Fault::K;
    }
    if !codec::good_slots(g.slots) {
        return Fault::Slots;
    }
    if !codec::good_blocks(g.blocks) {
        return Fault::Blocks;
    }
    if !codec::good_disk(g.disk) {
        return Fault::Disk;
    }
    Fault::Sound
}

// 1: under 128 bytes, or the first header field that is not as it should be.
fn header_fault(card: &[u8], low: u64, high: u64) -> Fault
    ensures { result ≡ header_fault low high card.now }
{
    if card.len() < 128 {
        return Fault::Short;
    }
    if numbers::get(card, 0, 4) != 64 {
        return Fault::HeaderLength;
    }
    let version = ring::version_of(card);
    if !((low <= version) & (version <= high)) {
        return Fault::Version;
    }
    let g = ring::geometry_of(card);
    if !codec::good_geometry(g) {
        return geometry_fault(g);
    }
    if ring::header_fits(card, low, high) {
        Fault::Sound
    } else {
        Fault::Reserved
    }
}

// 4: the position of the first slot of the window, counted from Tail, whose number is not below D.
fn window_fault(g: Geometry, card: &[u8], w: Window) -> Fault
    requires { Fitted g card.now × WindowOf g card.now w }
    ensures { result ≡ window_fault g card.now }
{
    for j in 0..w.count {
        if ring::window_number(g, card, w, j) >= g.disk {
            return Fault::WindowNumber(ring::forward(g.slots, w.tail, j));
        }
    }
    Fault::Sound
}

// 4: Head or Tail that is not below S, or that slot.
fn ring_fault(g: Geometry, card: &[u8]) -> Fault
    requires { Fitted g card.now }
    ensures { result ≡ ring_fault g card.now }
{
    if ring::head_of(card) >= g.slots {
        return Fault::Head;
    }
    if ring::tail_of(card) >= g.slots {
        return Fault::Tail;
    }
    window_fault(g, card, ring::window_of(g, card))
}

// 5: whether a previous block is below N or FRESH.
fn good_previous(n: u64, p: u32) -> bool
    ensures { result ≡ good_previous n p }
{
    (u64::from(p) < n) | (p == FRESH)
}

// 5: the first wrong field of the entry e at place i, with the version v.
fn entry_fault_of(v: u64, n: u64, d: u64, i: u64, e: Entry) -> Fault
    ensures { result ≡ entry_fault_of v n d i e }
{
    if survey::is_unused(e) {
        return Fault::Sound;
    }
    if e.flags == 0 {
        return Fault::NotZero(i);
    }
    let over = (v == 2) & ((e.flags == 0x86) | (e.flags == 0x87));
    if !((e.flags == 0x80) | ((e.flags == 0x82) | ((e.flags == 0x83) | over))) {
        return Fault::Flags(i);
    }
    if e.number >= d {
        return Fault::Number(i);
    }
    if !good_previous(n, e.previous) {
        return Fault::Previous(i);
    }
    if u64::from(e.current) >= n {
        return Fault::Current(i);
    }
    Fault::Sound
}

// 5: what is wrong with the first entry that check 5 forbids.
fn entry_fault(g: Geometry, version: u64, card: &[u8]) -> Fault
    requires { Fitted g card.now × (version ≡ version_of card.now) }
    ensures { result ≡ entry_fault g card.now }
{
    for i in 0..g.blocks as usize {
        let e = checks::entry_of(g, card, i);
        if !codec::good_entry(version, g.blocks, g.disk, e) {
            return entry_fault_of(version, g.blocks, g.disk, i as u64, e);
        }
    }
    Fault::Sound
}

// The settled block of entry i.
fn settled_block(g: Geometry, card: &[u8], w: Window, i: usize) -> u32
    requires { Fitted g card.now × WindowOf g card.now w × (i < g.blocks) }
    ensures { result ≡ settled_block g card.now i }
{
    let e = checks::entry_of(g, card, i);
    survey::settled(checks::undoable(g, card, w, e), e)
}

// 6: whether entries i and j have equal settled blocks.
fn same_settled(g: Geometry, card: &[u8], w: Window, i: usize, j: usize) -> bool
    requires { Fitted g card.now × WindowOf g card.now w × (i < g.blocks) × (j < g.blocks) }
    ensures { result ≡ same_settled g card.now i j }
{
    let a = settled_block(g, card, w, i);
    let b = settled_block(g, card, w, j);
    (a == b) & (a != FRESH)
}

// Whether entries i and j are not two in-use entries that are alike.
fn is_apart(g: Geometry, card: &[u8], w: Window, i: usize, j: usize) -> bool
    requires { Fitted g card.now × WindowOf g card.now w × (i < g.blocks) × (j < g.blocks) }
    ensures { result ≡ apart g card.now i j }
{
    let a = checks::entry_of(g, card, i);
    let b = checks::entry_of(g, card, j);
    let alike = (a.number == b.number)
        | ((a.current == b.current) | same_settled(g, card, w, i, j));
    !(codec::in_use(a) & (codec::in_use(b) & alike))
}

// 6: the first entry before entry i that is in use and alike to it, i where there is none.
fn first_alike(g: Geometry, card: &[u8], w: Window, i: usize) -> usize
    requires { Fitted g card.now × WindowOf g card.now w × (i < g.blocks) }
    ensures { result ≡ first_alike g card.now i }
{
    (0..i).find(|j| !is_apart(g, card, w, i, *j)).unwrap_or(i)
}

// 6: in which way entries i and j are alike.
fn pair_fault_of(g: Geometry, card: &[u8], w: Window, i: usize, j: usize) -> Fault
    requires { Fitted g card.now × WindowOf g card.now w × (i < g.blocks) × (j < g.blocks) }
    ensures { result ≡ pair_fault_of g card.now i j }
{
    let a = checks::entry_of(g, card, i);
    let b = checks::entry_of(g, card, j);
    if a.number == b.number {
        return Fault::SameNumber(i as u64, j as u64);
    }
    if a.current == b.current {
        return Fault::SameCurrent(i as u64, j as u64);
    }
    if same_settled(g, card, w, i, j) {
        return Fault::SameSettled(i as u64, j as u64);
    }
    Fault::Sound
}

// 6: the first entry that is alike to one before it, and the first such one.
fn pair_fault(g: Geometry, card: &[u8]) -> Fault
    requires { Fitted g card.now × Placed g card.now }
    ensures { result ≡ pair_fault g card.now }
{
    let w = ring::window_of(g, card);
    for i in 0..g.blocks as usize {
        let j = first_alike(g, card, w, i);
        if j < i {
            return pair_fault_of(g, card, w, i, j);
        }
    }
    Fault::Sound
}

// 4 to 6: a damaged card. A fault is searched where its check has refused.
fn damage_fault(f: Fit, card: &[u8]) -> Fault
    requires { Framed card.now f }
    ensures { result ≡ damage_fault f.geometry card.now }
{
    let g = f.geometry;
    let refusal = checks::damage_refusal(f, card);
    if refusal == 0 {
        return Fault::Sound;
    }
    if refusal == 4 {
        return ring_fault(g, card);
    }
    if refusal == 5 {
        return entry_fault(g, f.version, card);
    }
    pair_fault(g, card)
}

// The first fault of the card, for a call that takes versions from low to high.
pub fn fault_of(card: &[u8], low: u64, high: u64) -> Fault
    ensures { result ≡ fault_of low high card.now }
{
    let f = ring::fit_of(card, low, high);
    if f.refusal == 0 {
        return damage_fault(f, card);
    }
    if f.refusal == 1 {
        header_fault(card, low, high)
    } else {
        Fault::Length(codec::card_length(ring::geometry_of(card)))
    }
}
