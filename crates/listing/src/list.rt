// A block's bytes, and recovery's list.
ghost use Rattle.std.specs.Prelude.{◌≡◌, true, ◌+◌, ◌≤◌, length};
ghost use Rattle.protocol.specs.Layout.{good_geometry};
ghost use Rattle.numbers.specs.Bytes.{part};
ghost use Rattle.protocol.specs.Store.{flat};
ghost use Rattle.protocol.specs.Recover.{recover_runs};
ghost use Rattle.ring.specs.Fitted.{Fitted, WindowOf};

use crate::marks::{entry, plain, say, word};
use protocol::{Entry, Geometry};
use recovery::{Spelled, Step};
use ring::Window;

// A listing of bytes, sixteen a line. A block has a multiple of sixteen.
pub fn block(out: &impl Print, bytes: &[u8]) {
    for (i, line) in bytes.as_chunks::<16>().0.iter().enumerate() {
        say(out, &text::list_line(line, 16 * i as u64));
    }
}

fn undone(out: &impl Print, i: u64, e: Entry) {
    say(out, b"  entry ");
    plain(out, i, 0);
    if e.flags == 0 {
        say(out, b" zeroed\n");
    } else {
        say(out, b" back to data block ");
        plain(out, u64::from(e.current), 0);
        say(out, b"\n");
    }
}

fn meaning(out: &impl Print, i: u64, u: Step) {
    match u {
        Step::Nothing => {}
        Step::Undo(e) => undone(out, i, e),
        Step::Tail(v) => {
            say(out, b"  Tail to Head, ");
            plain(out, v, 0);
            say(out, b"\n");
        }
    }
}

// One line of the list: its number, where the store goes, its bytes and what it does.
fn line(out: &impl Print, number: u64, i: u64, u: Step, s: Spelled) {
    plain(out, number, 7);
    plain(out, u64::from(s.place), 7);
    say(out, b"  ");
    if s.size == 8 {
        word(out, s.bytes);
    } else {
        entry(out, s.bytes);
    }
    meaning(out, i, u);
}

// A line for each store of recovery's list, and their count.
fn lines(out: &impl Print, g: Geometry, card: &[u8], w: Window) -> u64
    requires { Fitted g card.now × WindowOf g card.now w }
    ensures { result ≡ length (flat (recover_runs g card.now)) }
{
    let mut count: u64 = 0;
    for i in 0..g.blocks as usize + 1 {
        let u = recovery::step_at(g, card, w, i);
        let s = recovery::spell(g, i, u);
        if s.size != 0 {
            count += 1;
            line(out, count, i as u64, u, s);
        }
    }
    count
}

fn heading(out: &impl Print) {
    say(
        out,
        b"  store   byte  bytes                               what\n",
    );
}

// Upgrade's one store under the same heading.
pub fn version(out: &impl Print, g: Geometry)
    requires { good_geometry g ≡ true }
{
    heading(out);
    plain(out, 1, 7);
    plain(out, 0, 7);
    say(out, b"  ");
    word(out, upgrade::word_bytes(g));
    say(out, b"  version 2\n");
}

// Recovery's list under a heading, and the count of its stores.
pub fn stores(out: &impl Print, g: Geometry, card: &[u8], w: Window) -> u64
    requires { Fitted g card.now × WindowOf g card.now w }
    ensures { result ≡ length (flat (recover_runs g card.now)) }
{
    heading(out);
    let n = lines(out, g, card, w);
    if n == 0 {
        say(out, b"  none\n");
    }
    n
}
