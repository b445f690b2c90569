// A card as it stands, in words and columns on standard output: as much of it as can be told. What the lines say comes from functions with
// contracts.
#![tactic(auto)]

use faults::Fault;
use listing::{Grouped, count, entry, plain, say};
use protocol::{Condition, Entry, FRESH, Reported};
use sentence::fault;
use survey::Line;

fn field(out: &impl Print, name: &[u8], f: Option<u64>) {
    say(out, name);
    match f {
        Some(n) => count(out, n, 8),
        None => say(out, b"       -"),
    }
    say(out, b"\n");
}

// B, where k is one that it can be told from.
fn block_size(k: Option<u64>) -> Option<u64> {
    match k? {
        k @ 9..=12 => Some(1 << k),
        _ => None,
    }
}

fn header(out: &impl Print, card: &[u8]) {
    let k = survey::field_in(card, 5, 1);
    say(out, b"\nheader\n");
    field(out, b"  length   ", survey::field_in(card, 0, 4));
    field(out, b"  version  ", survey::field_in(card, 4, 1));
    field(out, b"  k        ", k);
    field(out, b"  B        ", block_size(k));
    field(out, b"  S        ", survey::field_in(card, 6, 2));
    field(out, b"  N        ", survey::field_in(card, 8, 4));
    field(out, b"  D        ", survey::field_in(card, 12, 4));
    field(out, b"  Head     ", survey::field_in(card, 64, 8));
    field(out, b"  Tail     ", survey::field_in(card, 72, 8));
}

// One slot of the window, and whether there was one.
fn slot(out: &impl Print, card: &[u8], j: u64) -> bool {
    let Some((p, n)) = survey::slot_of(card, j) else {
        return false;
    };
    plain(out, p, 6);
    say(out, b" ");
    plain(out, n, 7);
    say(out, b"\n");
    true
}

// The window's slots, from Tail on, and whether there are any.
fn window(out: &impl Print, card: &[u8]) -> bool {
    for j in 0..256 {
        if !slot(out, card, j) {
            return j != 0;
        }
    }
    true
}

fn bytes(out: &impl Print, e: Entry) {
    let mut raw = [0u8; 16];
    codec::put_entry(&mut raw, 0, e);
    say(out, b"  ");
    entry(out, raw);
}

fn flag(out: &impl Print, set: bool, letter: &[u8]) {
    if set {
        say(out, letter);
    } else {
        say(out, b" -");
    }
}

fn data_block(out: &impl Print, p: u32, none: &[u8]) {
    say(out, b" ");
    if p == FRESH {
        say(out, none);
    } else {
        plain(out, u64::from(p), 9);
    }
}

fn fields(out: &impl Print, i: u64, e: Entry) {
    plain(out, i, 7);
    bytes(out, e);
    say(out, b" ");
    flag(out, codec::in_use(e), b" V");
    flag(out, codec::was_modified(e), b" P");
    flag(out, codec::is_modified(e), b" M");
    flag(out, codec::has_log_role(e), b" R");
    say(out, b" ");
    plain(out, e.number, 7);
    data_block(out, e.previous, b"    FRESH");
    say(out, b" ");
    plain(out, u64::from(e.current), 8);
}

fn known(out: &impl Print, undoable: bool, settled: u32) {
    if undoable {
        say(out, b"       yes");
    } else {
        say(out, b"        no");
    }
    data_block(out, settled, b"     none");
}

// Entry i, where it is not all zero: whether it was printed, where the card has such an entry.
fn line(out: &impl Print, card: &[u8], i: u64) -> Option<bool> {
    match survey::line_of(card, i) {
        Line::Missing => return None,
        Line::Unused => return Some(false),
        Line::Raw(e) => {
            fields(out, i, e);
            say(out, b"         -         -\n");
        }
        Line::Full(e, undoable, settled) => {
            fields(out, i, e);
            known(out, undoable, settled);
            say(out, b"\n");
        }
    }
    Some(true)
}

// Data block p, where it is free: whether it was printed, where the card has such a block.
fn free_block(out: &impl Print, card: &[u8], p: u64) -> Option<bool> {
    let free = survey::block_of(card, p)?;
    if free {
        plain(out, p, 4);
    }
    Some(free)
}

// Every place that the card has is shown, in order; whether any was printed.
fn all<F: Fn(u64) -> Option<bool>>(show: F) -> bool
    requires { F.IsAlwaysCallable show }
{
    let mut any = false;
    for i in 0..128 {
        let Some(printed) = show(i) else {
            return any;
        };
        any |= printed;
    }
    any
}

fn told(out: &impl Print, c: Condition) {
    match c {
        Condition::Settled { used, modified } => {
            let _ = println!(out;
                "settled, entries in use {}, modified {}",
                Grouped(used),
                Grouped(modified)
            );
        }
        Condition::Unsettled { undoable, window } => {
            let _ = println!(out;
                "unsettled, undoable entries {}, slots in the window {}",
                Grouped(undoable),
                Grouped(window)
            );
        }
    }
}

// Why the card's state is not told: it is an earlier version's, which is only recovered and upgraded, or it is refused.
fn unstated(out: &impl Print, card: &[u8]) {
    let u = upgrade::examine(card);
    if u.refusal == 0 {
        say(out, b"condition  version 1, settled: to be upgraded\n");
    } else if u.refusal == 7 {
        say(
            out,
            b"condition  version 1, not settled: to be recovered, then upgraded\n",
        );
    } else {
        let s = recovery::examine(card);
        fault(out, s.refusal, faults::fault_of(card, 1, 2), 1, 2);
    }
}

// The card's condition in one line, or why it is refused.
pub fn condition(out: &impl Print, card: &[u8]) {
    match lookup::state(card) {
        Reported::Is(s) => {
            say(out, b"condition  ");
            told(out, s.condition);
        }
        Reported::Refused(_) => unstated(out, card),
    }
}

fn ring(out: &impl Print, card: &[u8]) {
    say(out, b"\nwindow\n  slot  number\n");
    if !window(out, card) {
        say(out, b"  empty\n");
    }
}

fn entries(out: &impl Print, card: &[u8]) {
    say(
        out,
        b"\nentries: V in use, P previous modified, M modified, R log role\n  place  bytes                               flags    number  previous  current  undoable   settled\n",
    );
    if !all(|i| line(out, card, i)) {
        say(out, b"  none in use\n");
    }
}

fn blocks(out: &impl Print, card: &[u8]) {
    say(out, b"\nfree data blocks\n ");
    if !all(|p| free_block(out, card, p)) {
        say(out, b" none");
    }
    say(out, b"\n");
}

// Whether the header can be trusted and the first entry is there.
fn has_entries(card: &[u8]) -> bool {
    !matches!(survey::line_of(card, 0), Line::Missing)
}

fn is_sound(card: &[u8]) -> bool {
    matches!(faults::fault_of(card, 1, 2), Fault::Sound)
}

// The length behind the name. Of a file longer than any card no more is read.
fn title(out: &impl Print, n: usize) {
    if n <= 528512 {
        let _ = println!(out; ": {} bytes", Grouped(n as u64));
    } else {
        say(out, b": more than 528,512 bytes\n");
    }
}

// All that can be told of the card.
pub fn card(out: &impl Print, name: &[u8], card: &[u8]) {
    say(out, name);
    title(out, card.len());
    header(out, card);
    if survey::ring_known(card) {
        ring(out, card);
    }
    if has_entries(card) {
        entries(out, card);
    }
    if is_sound(card) {
        blocks(out, card);
    }
    say(out, b"\n");
    condition(out, card);
}
