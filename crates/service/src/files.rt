// The commands on their files.
ghost use Rattle.std.specs.Prelude.{◌≤◌, ◌<◌};

use cardfile::{err, fetch, is_long_enough, load, open, open_update, refuse};
use faults::Fault;
use image::Repair;
use listing::{Grouped, Ungrouped, fail, say};
use lookup::Found;
use protocol::{Geometry, Outcome};
use std::fs::File;
use std::io;
use std::io::{Seek, SeekFrom};
use std::os::unix::fs::FileExt;

// Says so where the file is not as long as its header asks.
fn match_header(rt: &HostRuntime, path: &[u8], card: &[u8]) {
    if let Fault::Length(long) = faults::fault_of(card, 1, 2) {
        err(rt, path);
        let _ = println!(&rt.stderr();
            ": {} bytes, and its header asks for {}",
            Grouped(card.len() as u64),
            Grouped(long)
        );
    }
}

pub fn show(rt: &HostRuntime, path: &[u8]) {
    let mut buf = image::buffer();
    let Some(n) = fetch(rt, path, &mut buf) else {
        return;
    };
    if is_long_enough(rt, path, n) {
        match_header(rt, path, &buf[..n]);
    }
    report::card(rt, path, &buf[..n]);
}

// "block 3, held by the card from byte 256 on"
fn held(rt: &HostRuntime, b: u64, by: &str, at: usize) {
    let _ = println!(rt;
        "block {}, held by the {by} from byte {} on",
        Ungrouped(b),
        Grouped(at as u64)
    );
}

// Why a block could not be read: an error, or the file has become shorter.
fn unread(rt: &HostRuntime, path: &[u8], got: io::Result<usize>) {
    match got {
        Err(e) => fail(&rt.stderr(), path, e),
        Ok(_) => {
            err(rt, path);
            err(rt, b": ended before the block did\n");
        }
    }
}

// A block of the disk, read from its file.
fn from_disk(rt: &HostRuntime, path: &[u8], file: &File, b: u64, at: usize, size: usize)
    requires { (size ≤ 4096) × (at < 268435456) }
{
    let mut room = [0u8; 4096];
    let bytes = &mut room[..size];
    match file.read_at(bytes, at as u64) {
        Ok(n) if n == size => {
            held(rt, b, "disk", at);
            listing::block(rt, bytes);
        }
        got => unread(rt, path, got),
    }
}

// A refusal of a card over a disk: 3 is the disk's.
fn refuse_pair(rt: &HostRuntime, name: &[u8], path: &[u8], card: &[u8], r: u8) {
    if r == 3 {
        refuse(rt, path, card, 2, 2, r);
    } else {
        refuse(rt, name, card, 2, 2, r);
    }
}

// Where block b of the card over a disk of `long` bytes lies, and its bytes.
fn find(rt: &HostRuntime, name: &[u8], card: &[u8], path: &[u8], file: &File, long: u64, b: u64) {
    match lookup::find_in(card, long, b) {
        Found::Refused(r) => refuse_pair(rt, name, path, card, r),
        Found::Outside(_) => refuse(rt, name, card, 2, 2, 10),
        Found::Card(at, size, _) => {
            held(rt, b, "card", at);
            listing::block(rt, &card[at..at + size]);
        }
        Found::Disk(at, size) => from_disk(rt, path, file, b, at, size),
    }
}

// The block of a card that was read, over the disk's file.
fn over_disk(rt: &HostRuntime, name: &[u8], card: &[u8], path: &[u8], b: u64) {
    let Some(mut file) = open(rt, path) else {
        return;
    };
    match file.seek(SeekFrom::End(0)) {
        Ok(long) => find(rt, name, card, path, &file, long, b),
        Err(e) => fail(&rt.stderr(), path, e),
    }
}

pub fn block(rt: &HostRuntime, path: &[u8], disk: &[u8], b: u64) {
    let mut buf = image::buffer();
    let Some(n) = fetch(rt, path, &mut buf) else {
        return;
    };
    if is_long_enough(rt, path, n) {
        over_disk(rt, path, &buf[..n], disk, b);
    }
}

// What became of a recovery's stores, or an upgrade's.
fn told(rt: &HostRuntime, path: &[u8], r: Repair) {
    if r.failed {
        err(rt, path);
        err(
            rt,
            b": a store could not be written and made durable, and half of it may be in the file: recover a copy made before\n",
        );
    }
    let end = if r.failed {
        "failed"
    } else if r.made < r.count {
        "cut"
    } else {
        "done"
    };
    let _ = println!(rt;
        "{} of {} stores made: {end}",
        Grouped(r.made),
        Grouped(r.count)
    );
}

// The condition of the card as the file now has it, if it can be read whole.
fn read_back(rt: &HostRuntime, path: &[u8], file: &mut File, card: &mut [u8]) {
    let _ = file.rewind();
    if load(rt, path, file, card) == Some(card.len()) {
        report::condition(rt, card);
    }
}

// Lists recovery's stores, makes them, and tells the condition of the card as the file now has it.
pub fn repair(rt: &HostRuntime, path: &[u8], file: &mut File, card: &mut [u8], allowance: u64) {
    let s = recovery::examine(card);
    if s.refusal != 0 {
        refuse(rt, path, card, 1, 2, s.refusal);
        return;
    }
    say(rt, b"recovery stores\n");
    listing::stores(rt, s.geometry, card, s.window);
    let r = image::recover(file, card, allowance);
    told(rt, path, r);
    read_back(rt, path, file, card);
}

// Shows upgrade's store, makes it, and tells the condition of the card as the file now has it.
pub fn renew(rt: &HostRuntime, path: &[u8], file: &mut File, card: &mut [u8], allowance: u64) {
    let s = upgrade::examine(card);
    if s.refusal != 0 {
        refuse(rt, path, card, 1, 1, s.refusal);
        return;
    }
    say(rt, b"upgrade stores\n");
    listing::version(rt, s.geometry);
    let r = image::upgrade(file, card, allowance);
    told(rt, path, r);
    read_back(rt, path, file, card);
}

// Opens the card's file for writing, reads the card and changes both: by `repair` or `renew`.
pub fn update<F: FnOnce(&HostRuntime, &[u8], &mut File, &mut [u8], u64)>(
    rt: &HostRuntime,
    path: &[u8],
    change: F,
    allowance: u64,
)
    requires { F.IsAlwaysCallable change }
{
    let Some(mut file) = open_update(rt, path) else {
        return;
    };
    let mut buf = image::buffer();
    let Some(n) = load(rt, path, &mut file, &mut buf) else {
        return;
    };
    if is_long_enough(rt, path, n) {
        change(rt, path, &mut file, &mut buf[..n], allowance);
    }
}

fn made(rt: &HostRuntime, path: &[u8], n: usize) {
    say(rt, path);
    let _ = println!(rt; ": made, {} bytes", Grouped(n as u64));
}

// Formats the card and makes its file.
fn make(rt: &HostRuntime, path: &[u8], g: Geometry, card: &mut [u8]) {
    match format::format(g.k, g.slots, g.blocks, g.disk, card) {
        Outcome::Done => {
            match image::create(rt, path, card) {
                Ok(()) => made(rt, path, card.len()),
                Err(e) => fail(&rt.stderr(), path, e),
            }
        }
        Outcome::Refused(r) => refuse(rt, path, card, 1, 2, r),
    }
}

fn misfit(rt: &HostRuntime, path: &[u8], g: Geometry) {
    err(rt, path);
    err(rt, b": ");
    sentence::fault(&rt.stderr(), 1, faults::geometry_fault(g), 1, 2);
}

pub fn format(rt: &HostRuntime, path: &[u8], g: Geometry) {
    if !codec::good_geometry(g) {
        misfit(rt, path, g);
        return;
    }
    let mut buf = image::buffer();
    let long = codec::card_length(g) as usize;
    make(rt, path, g, &mut buf[..long]);
}
