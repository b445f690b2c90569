// Shows a card image, reads a block of it, foresees a save to it, recovers it, upgrades it, makes a new one. Files, arguments and their errors are here; what
// is told and stored comes from functions with contracts.
#![tactic(auto)]

mod files;
mod words;

use std::fs::OpenOptions;
use std::os::fd::{AsRawFd, IntoRawFd};
use words::Word;

fn usage(rt: &HostRuntime) {
    let err = rt.stderr();
    listing::say(&err, b"usage: service show CARD\n");
    listing::say(&err, b"       service block CARD DISK NUMBER\n");
    listing::say(&err, b"       service preview CARD NUMBER...\n");
    listing::say(&err, b"       service recover CARD [ALLOWANCE]\n");
    listing::say(&err, b"       service upgrade CARD [ALLOWANCE]\n");
    listing::say(&err, b"       service format CARD K S N D\n");
    listing::say(&err, b"example: service format card.img 9 8 4 16\n");
}

// Whether the command has as many arguments as it takes and they can be read; it then does its work.
fn run(rt: &HostRuntime, word: Word, count: usize) -> bool {
    match word {
        Word::Show => (count == 3) && words::show(rt).is_some(),
        Word::Block => (count == 5) && words::block(rt).is_some(),
        Word::Preview => (3 <= count) && words::preview(rt, count).is_some(),
        Word::Recover => (count == 3 || count == 4)
            && words::update(rt, count, files::repair).is_some(),
        Word::Upgrade => (count == 3 || count == 4)
            && words::update(rt, count, files::renew).is_some(),
        Word::Format => (count == 7) && words::format(rt).is_some(),
        Word::Other => false,
    }
}

// Takes the lowest free descriptor if it is one of the three standard ones: a card that was opened in the place of a closed standard output
// would have the report written over it.
fn hold(rt: &HostRuntime) {
    if let Ok(file) = OpenOptions::new()
        .read(true)
        .write(true)
        .open(rt, "/dev/null")
    {
        if file.as_raw_fd() <= 2 {
            // it stays open to the program's end
            file.into_raw_fd();
        }
    }
}

fn main(rt: HostRuntime) {
    hold(&rt);
    hold(&rt);
    hold(&rt);
    if !run(&rt, words::command(&rt), arguments::count(&rt)) {
        usage(&rt);
    }
}
