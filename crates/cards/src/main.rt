// Reads cards made by hand: fresh, half-made, and damaged in each of the six ways, and prints what state, read and look answer.
// Blocks of 512 bytes, eight slots, four data blocks, sixteen disk blocks; entries begin at byte 192, data blocks at 256.
#![tactic(auto)]

ghost use Rattle.std.specs.Prelude.{◌<◌};

use std::io;

// What is answered of a card and a disk: its state, block 3 by read, and by look the part's length and first byte.
fn show<'a>(rt: &impl Print, name: &str, card: &'a [u8], disk: &'a [u8]) -> io::Result<()> {
    let mut out = [0u8; 512];
    println!(rt; "{name}\n  state {}", lookup::state(card))?;
    let held = lookup::read(card, disk, 3, &mut out);
    println!(rt; "  read {held} {}", out[0])?;
    let part = lookup::look(card, disk, 3);
    print!(rt; "  look {}", part.len())?;
    if let Some(first) = part.first() {
        print!(rt; " {first}")?;
    }
    println!(rt; "")
}

fn fresh() -> [u8; 2304] {
    let mut card = [0u8; 2304];
    format::format(9, 8, 4, 16, &mut card);
    card
}

// Entry i in use for block `number` with flag f, previous FRESH, current data block 1.
fn enter(card: &mut [u8; 2304], i: usize, f: u8, number: u8)
    requires { i < 4 }
{
    let entry = &mut card[192 + 16 * i..208 + 16 * i];
    entry[0] = f;
    entry[7] = number;
    entry[8..12].fill(255);
    entry[15] = 1;
}

// Block 3 in use with flag f, previous FRESH, current data block 1, which holds 5.
fn holding(f: u8) -> [u8; 2304] {
    let mut card = fresh();
    enter(&mut card, 0, f, 3);
    card[768] = 5;
    card
}

fn sound(rt: &impl Print, disk: &[u8]) -> io::Result<()> {
    show(rt, "fresh", &fresh(), disk)?;
    show(rt, "clean", &holding(0x80), disk)?;
    show(rt, "modified", &holding(0x82), disk)?;
    show(rt, "half-made", &holding(0x83), disk)
}

// The same with P: the version before was modified too.
fn over(rt: &impl Print, disk: &[u8]) -> io::Result<()> {
    show(rt, "modified over modified", &holding(0x86), disk)?;
    show(rt, "half-made over modified", &holding(0x87), disk)
}

// One byte of a sound card changed.
fn damaged(rt: &impl Print, name: &str, at: usize, x: u8, disk: &[u8]) -> io::Result<()> {
    let mut card = holding(0x82);
    if let Some(byte) = card.get_mut(at) {
        *byte = x;
    }
    show(rt, name, &card, disk)
}

// A second entry in use for another number, with the same current block.
fn shared(rt: &impl Print, disk: &[u8]) -> io::Result<()> {
    let mut card = holding(0x82);
    enter(&mut card, 1, 0x82, 4);
    show(rt, "6: one current block twice", &card, disk)
}

// Head one slot on, with a number of two bytes in that slot.
fn windowed(rt: &impl Print, name: &str, number: u16, disk: &[u8]) -> io::Result<()> {
    let mut card = holding(0x82);
    card[71] = 1;
    let bytes = number.to_be_bytes();
    card[134] = bytes[0];
    card[135] = bytes[1];
    show(rt, name, &card, disk)
}

// The first n bytes of a sound card, or all where it has fewer.
fn short(rt: &impl Print, name: &str, n: usize, disk: &[u8]) -> io::Result<()> {
    let card = holding(0x82);
    show(rt, name, card.get(..n).unwrap_or(&card), disk)
}

// A sound card over a disk that lacks a byte.
fn short_disk(rt: &impl Print) -> io::Result<()> {
    show(rt, "3: disk a byte short", &holding(0x82), &[1; 8191])
}

fn fitter(rt: &impl Print, disk: &[u8]) -> io::Result<()> {
    damaged(rt, "1: version 1", 4, 1, disk)?;
    damaged(rt, "1: version 3", 4, 3, disk)?;
    damaged(rt, "1: k 8", 5, 8, disk)?;
    short(rt, "1: 127 bytes", 127, disk)?;
    short(rt, "1: no card", 0, disk)?;
    short(rt, "2: a byte short", 2303, disk)?;
    short_disk(rt)
}

fn damage(rt: &impl Print, disk: &[u8]) -> io::Result<()> {
    damaged(rt, "4: Head 8", 71, 8, disk)?;
    windowed(rt, "4: a window number 1024", 1024, disk)?;
    damaged(rt, "5: flag 81", 192, 0x81, disk)?;
    damaged(rt, "5: flag 84", 192, 0x84, disk)?;
    damaged(rt, "5: current block 4", 207, 4, disk)?;
    damaged(rt, "5: an unused entry with a number", 231, 9, disk)?;
    shared(rt, disk)?;
    windowed(rt, "half-made by the window", 3, disk)?;
    damaged(rt, "a window without an entry", 71, 2, disk)
}

fn main(rt: HostRuntime) -> io::Result<()> {
    let disk = [1u8; 8192];
    sound(&rt, &disk)?;
    over(&rt, &disk)?;
    fitter(&rt, &disk)?;
    damage(&rt, &disk)
}
