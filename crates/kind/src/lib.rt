// What kind of file a path leads to, asked before it is opened: the open of a FIFO waits until another program opens it too, and the bytes of
// a device need not end.
#![tactic(auto)]

ghost use Rattle.std.specs.Prelude.{◌≡◌, ◌/◌, ◌%◌, ◌<◌, eqb, length, replicate};
ghost use Rattle.numbers.specs.Bytes.{patch};
ghost use Rattle.kind.specs.Path.{Ended};

use std::ffi::CStr;
use std::fs;
use std::os::unix::fs::MetadataExt;
use std::rt::Files;

// No path that the system takes is as long: a zero has room behind it.
const PATH_MAX: usize = 4096;

// The bits of a mode that tell a file's kind, and a regular file's.
const KIND: u32 = 0o170000;

const REGULAR: u32 = 0o100000;

// The path with zeros behind it, up to the first of which the system reads it.
fn ended(path: &[u8]) -> [u8; PATH_MAX]
    requires { length path.now < 4096 }
    ensures { (result ≡ patch (replicate 4096 0) 0 path.now) × Ended result }
{
    let mut text = [0u8; PATH_MAX];
    numbers::copy(&mut text, 0, path, 0, path.len());
    text
}

// Asks the system of the file at the path, links followed: its mode, where it knows one.
fn ask(files: &impl Files, path: &[u8; PATH_MAX]) -> Option<u32>
    requires { Ended path.now }
{
    let text = CStr::from_bytes_until_nul(path).ok()?.to_str().ok()?;
    let about = fs::metadata(files, text).ok()?;
    Some(about.mode())
}

// Whether the mode is that of a regular file: of its bits, 12 to 15 hold 8.
fn is_regular(mode: u32) -> bool
    ensures { result ≡ eqb (mode / 4096 % 16) 8 }
{
    mode & KIND == REGULAR
}

// Whether the path leads to something that is there and is no regular file: a folder, a FIFO, a socket, a device. A path of which the system
// knows no file is not special; an open of it fails and says why.
pub fn is_special(files: &impl Files, path: &[u8]) -> bool {
    if PATH_MAX <= path.len() {
        return false;
    }
    ask(files, &ended(path)).is_some_and(|mode| !is_regular(mode))
}
