// Card images in files: read, made new, upgraded, and recovered store by store, each store durable before the next. No contract can speak of a file's
// bytes; so each store is made in memory too, only after the file has it, and the contracts speak of that.
#![tactic(auto)]

ghost use Rattle.std.specs.Prelude.{◌≡◌, true, List, ◌++◌, ℕ, ◌+◌, ◌≤◌, ◌<◌, ◌↔◌, length, IfOk, IsOk, take};
ghost use Rattle.std.specs.Str.{IsUtf8};
ghost use Rattle.protocol.specs.Store.{Run};
ghost use Rattle.protocol.specs.Recover.{recover_runs};
ghost use Rattle.recovery.specs.Step.{step_runs, undoes};
ghost use Rattle.ring.specs.Fitted.{Fitted, WindowOf};
ghost use Rattle.image.specs.Walked.{Walked, Repaired, Upgraded};

use protocol::Geometry;
use recovery::Step;
use ring::Window;
use std::fs::{OpenFile, OpenOptions};
use std::io::{ErrorKind, Read, Write};
use std::os::unix::fs::FileExt;
use std::rt::Files;
use std::{fs, io, str};

// Room for the largest card and one byte more, by which a longer file is seen to be longer.
pub fn buffer() -> [u8; 528513]
    ensures { 528513 ≡ length result }
{
    [0; 528513]
}

// The path as text, which is how std names a file. A name of other bytes is refused.
pub fn name(path: &[u8]) -> io::Result<&str>
    ensures ok { IfOk result (λ text. text.now ≡ path.now) }
    ensures succeeds { IsOk result ↔ IsUtf8 path.now }
{
    str::from_utf8(path).map_err(|_| io::Error::new(
        ErrorKind::InvalidInput,
        "the name is not UTF-8",
    ))
}

// Reads the file's first bytes, as many as the buffer holds, and returns how many it put at the front. Where a read fails, what was read
// before it is of no use.
pub fn read(file: &mut impl Read, buf: &mut [u8]) -> io::Result<usize>
    ensures within { IfOk result (λ count. (count ≤ length buf.new) × (count ≡ length (take count buf.new))) }
    ensures kept { length buf.new ≡ length buf.old }
{
    let mut count = 0;
    while count < buf.len() {
        let n = file.read(&mut buf[count..])?;
        if n == 0 {
            break;
        }
        count += n;
    }
    Ok(count)
}

// Writes all of the card, and waits until it is durable.
fn write(file: &mut (impl Write + OpenFile), card: &[u8]) -> io::Result<()> {
    file.write_all(card)?;
    file.sync_all()
}

// Makes the file anew, with these bytes. A file of that name is left as it is, and one that cannot be written whole is removed.
pub fn create(files: &impl Files, path: &[u8], card: &[u8]) -> io::Result<()> {
    let path = name(path)?;
    let mut file = OpenOptions::new()
        .write(true)
        .create_new(true)
        .open(files, path)?;
    let made = write(&mut file, card);
    if made.is_err() {
        let _ = fs::remove_file(files, path);
    }
    made
}

// How far the stores have come: how many the list has so far, how many of them are made, and whether a write to the file failed: a flag and no error in
// their place, since both counts are told of a failed list too (`Walked`, `Repaired`).
#[derive(Clone, Copy)]
pub struct Walk {
    pub count: u64,
    pub made: u64,
    pub failed: bool,
}

// Puts the first `size` bytes into the file, and waits until they are durable. A unit that went in part is put again, whole: half of an entry
// may read as another.
fn put(file: &(impl FileExt + OpenFile), place: u32, bytes: &[u8], size: usize) -> io::Result<()>
    requires { size ≤ length bytes.now }
{
    let unit = &bytes[..size];
    let at = u64::from(place);
    if file.write_at(unit, at)? != size && file.write_at(unit, at)? != size {
        return Err(io::Error::from(ErrorKind::WriteZero));
    }
    file.sync_data()
}

// One step of the list, place `at`: in the file, and where that has it, in memory. Once the allowance is used up or a write has failed, no
// more stores are made, as after a power cut.
fn walk_step(
    file: &(impl FileExt + OpenFile),
    g: Geometry,
    card: &mut [u8],
    at: usize,
    u: Step,
    so: Walk,
    allowance: u64,
) -> Walk
    requires { Fitted g card.old × (undoes u ≡ true → at < g.blocks) × (so.made ≤ so.count) × (so.count ≤ at) × (at ≤ g.blocks) }
    ensures { ((rs : List Run) (c : List ℕ) → Walked rs allowance c card.old so → Walked (rs ++ step_runs g at u) allowance c card.new result) × (result.count ≤ so.count + 1) }
{
    let s = recovery::spell(g, at, u);
    if s.size == 0 {
        return so;
    }
    let count = so.count + 1;
    if so.failed | (allowance <= so.made) {
        return Walk { count, ..so };
    }
    if put(file, s.place, &s.bytes, s.size).is_err() {
        return Walk {
            count,
            made: so.made,
            failed: true,
        };
    }
    recovery::make_step(g, card, at, u, 2);
    Walk {
        count,
        made: so.made + 1,
        failed: false,
    }
}

// The whole list, in its order.
fn walk_list(
    file: &(impl FileExt + OpenFile),
    g: Geometry,
    card: &mut [u8],
    w: Window,
    allowance: u64,
) -> Walk
    requires { Fitted g card.old × WindowOf g card.old w }
    ensures { Walked (recover_runs g card.old) allowance card.old card.new result }
{
    let mut so = Walk {
        count: 0,
        made: 0,
        failed: false,
    };
    for i in 0..g.blocks as usize + 1 {
        let u = recovery::step_at(g, card, w, i);
        so = walk_step(file, g, card, i, u, so, allowance);
    }
    so
}

// What a recovery or an upgrade of a file came to: its refusal; the stores of its list and how many of them are made; whether a write failed.
#[derive(Clone, Copy)]
pub struct Repair {
    pub refusal: u8,
    pub count: u64,
    pub made: u64,
    pub failed: bool,
}

// Recovers the card in the file, whose bytes were read into `card`: the stores of recovery's list, in its order, each durable before the
// next, as many as the allowance.
pub fn recover(file: &(impl FileExt + OpenFile), card: &mut [u8], allowance: u64) -> Repair
    ensures { Repaired allowance card.old card.new result }
{
    let s = recovery::examine(card);
    if s.refusal != 0 {
        return Repair {
            refusal: s.refusal,
            count: 0,
            made: 0,
            failed: false,
        };
    }
    let r = walk_list(file, s.geometry, card, s.window, allowance);
    Repair {
        refusal: 0,
        count: r.count,
        made: r.made,
        failed: r.failed,
    }
}

fn stopped(failed: bool) -> Repair
    ensures { result ≡ record { refusal = 0; count = 1; made = 0; failed = failed } }
{
    Repair {
        refusal: 0,
        count: 1,
        made: 0,
        failed,
    }
}

// Upgrades the card in the file, whose bytes were read into `card`: its one store, durable, where the allowance lets it happen.
pub fn upgrade(file: &(impl FileExt + OpenFile), card: &mut [u8], allowance: u64) -> Repair
    ensures { Upgraded allowance card.old card.new result }
{
    let u = upgrade::examine(card);
    if u.refusal != 0 {
        return Repair {
            refusal: u.refusal,
            count: 0,
            made: 0,
            failed: false,
        };
    }
    if allowance == 0 {
        return stopped(false);
    }
    let bytes = upgrade::word_bytes(u.geometry);
    if put(file, 0, &bytes, 8).is_err() {
        return stopped(true);
    }
    upgrade::upgrade(card, 1);
    Repair {
        refusal: 0,
        count: 1,
        made: 1,
        failed: false,
    }
}
