// A card's file, opened and read, and what is wrong with it, in a line on standard error.
#![tactic(auto)]

ghost use Rattle.std.specs.Prelude.{◌≡◌, ◌≤◌, length, take, IfSome};
ghost use Rattle.std.specs.Result.{result_ok};

use listing::{Grouped, fail, say};
use std::fs::{File, OpenOptions};
use std::io;

pub fn err(rt: &HostRuntime, s: &[u8]) {
    say(&rt.stderr(), s);
}

// Whether the path leads to what is no regular file; says so. Such a thing is never opened: a FIFO would keep the program waiting.
pub fn is_special(rt: &HostRuntime, path: &[u8]) -> bool {
    if !kind::is_special(rt, path) {
        return false;
    }
    err(rt, path);
    err(rt, b": not a regular file\n");
    true
}

// The value; or none, and it is said why.
fn or_say<T>(rt: &HostRuntime, path: &[u8], r: io::Result<T>) -> Option<T>
    ensures { result ≡ result_ok r }
{
    match r {
        Ok(x) => Some(x),
        Err(e) => {
            fail(&rt.stderr(), path, e);
            None
        }
    }
}

fn open_as(rt: &HostRuntime, how: &OpenOptions, path: &[u8]) -> io::Result<File> {
    how.open(rt, image::name(path)?)
}

// The file, open as is asked; or none, and it is said why.
fn open_or_say(rt: &HostRuntime, how: &OpenOptions, path: &[u8]) -> Option<File> {
    if is_special(rt, path) {
        return None;
    }
    or_say(rt, path, open_as(rt, how, path))
}

// The file, open for reading; or none, and it is said why.
pub fn open(rt: &HostRuntime, path: &[u8]) -> Option<File> {
    open_or_say(rt, OpenOptions::new().read(true), path)
}

// The file, open for reading and for stores; or none, and it is said why.
pub fn open_update(rt: &HostRuntime, path: &[u8]) -> Option<File> {
    open_or_say(rt, OpenOptions::new().read(true).write(true), path)
}

// Reads the file, and returns how many bytes it put at the front of the buffer; or none, and it is said what went wrong.
pub fn load(rt: &HostRuntime, path: &[u8], file: &mut File, buf: &mut [u8]) -> Option<usize>
    ensures within { IfSome result (λ count. (count ≤ length buf.new) × (count ≡ length (take count buf.new))) }
    ensures kept { length buf.new ≡ length buf.old }
{
    or_say(rt, path, image::read(file, buf))
}

// Opens the file, reads it and closes it, and says what went wrong.
pub fn fetch(rt: &HostRuntime, path: &[u8], buf: &mut [u8]) -> Option<usize>
    ensures within { IfSome result (λ count. (count ≤ length buf.new) × (count ≡ length (take count buf.new))) }
    ensures kept { length buf.new ≡ length buf.old }
{
    let mut file = open(rt, path)?;
    load(rt, path, &mut file, buf)
}

// Says so where no card has this length.
pub fn is_long_enough(rt: &HostRuntime, path: &[u8], n: usize) -> bool {
    if (2304 <= n) & (n <= 528512) {
        return true;
    }
    err(rt, path);
    if n < 2304 {
        let _ = println!(&rt.stderr();
            ": {} bytes, and the smallest card has 2,304",
            Grouped(n as u64)
        );
    } else {
        err(
            rt,
            b": longer than the largest card, which has 528,512 bytes\n",
        );
    }
    false
}

// A refusal on standard error, behind the file's name, by a call that takes versions from low to high: the card's fault, or what lies with the disk,
// an earlier cut or the numbers asked for.
pub fn refuse(rt: &HostRuntime, path: &[u8], card: &[u8], low: u64, high: u64, r: u8) {
    err(rt, path);
    err(rt, b": ");
    if (r == 3) | (7 <= r) {
        sentence::refusal(&rt.stderr(), r);
    } else {
        sentence::fault(
            &rt.stderr(),
            r,
            faults::fault_of(card, low, high),
            low,
            high,
        );
    }
}
