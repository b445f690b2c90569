// A save seen before it is made: what it would get and replace on a card's image, and the count of its stores. What is told comes from `foresee`.
#![tactic(auto)]

ghost use Rattle.std.specs.Prelude.{◌≤◌, length};
ghost use Rattle.outlook.specs.Foreseen.{Foreseen};

use cardfile::{fetch, is_long_enough, refuse};
use listing::{Grouped, plain, say};
use plan::{Plan, Saving};
use protocol::Mapped;

// What a commit of the numbers comes to on this card, with the map that the card gives, data of the right length and a choice that fits. A map is
// made of a version 1 card too, which no commit takes: that is asked first.
pub fn foresee(card: &[u8], numbers: &[u64]) -> Saving
    requires { length numbers.now ≤ 256 }
    ensures { Foreseen card.now numbers.now result }
{
    let unfit = ring::fit_refusal(card, 2, 2);
    if unfit != 0 {
        return plan::unplanned(unfit);
    }
    match recovery::make_map(card) {
        Mapped::Refused(r) => plan::unplanned(r),
        Mapped::Is(map) => {
            let size = codec::block_offset(ring::geometry_of(card), numbers.len() as u64);
            plan::prepare(card, map, numbers, size as usize)
        }
    }
}

// "save of 2 blocks", and the names of the columns.
fn heading(out: &impl Print, n: usize) {
    let blocks = if n == 1 { "block" } else { "blocks" };
    let _ = println!(out; "save of {} {blocks}", Grouped(n as u64));
    let _ = println!(out; "  number  data block  entry  replaces");
}

// The previous data block has 128 added where it is modified, and is 256 for FRESH.
fn row(out: &impl Print, number: u64, block: u8, entry: u8, previous: u16) {
    plain(out, number, 8);
    plain(out, u64::from(block), 12);
    plain(out, u64::from(entry), 7);
    if previous < 256 {
        plain(out, u64::from(previous % 128), 10);
    } else {
        say(out, b"      none");
    }
    say(out, b"\n");
}

// A line for each number, in the order given.
fn rows(out: &impl Print, numbers: &[u64], p: Plan)
    requires { length numbers.now ≤ 128 }
{
    for (i, number) in numbers.iter().enumerate() {
        row(out, *number, p.blocks[i], p.entries[i], p.previous[i]);
    }
}

// The count of the save's stores.
fn total(out: &impl Print, m: u64) {
    let _ = println!(out; "stores {}", Grouped(m));
}

// The save on a card that was read, or why it is refused.
fn tell(rt: &HostRuntime, path: &[u8], card: &[u8], numbers: &[u64])
    requires { length numbers.now ≤ 256 }
{
    let s = foresee(card, numbers);
    if s.refusal != 0 {
        refuse(rt, path, card, 2, 2, s.refusal);
        return;
    }
    heading(rt, numbers.len());
    rows(rt, numbers, s.plan);
    total(rt, plan::count_of(ring::geometry_of(card), numbers.len()));
}

pub fn preview(rt: &HostRuntime, path: &[u8], numbers: &[u64])
    requires { length numbers.now ≤ 256 }
{
    let mut buf = image::buffer();
    let Some(n) = fetch(rt, path, &mut buf) else {
        return;
    };
    if is_long_enough(rt, path, n) {
        tell(rt, path, &buf[..n], numbers);
    }
}
