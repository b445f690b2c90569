// The drill of document 01: what a power cut at each place of a save of one block leaves, once the card is recovered.
#![tactic(auto)]

use protocol::{Answer, Map, Mapped};
use std::io;

fn word(a: Answer) -> &'static str {
    match a {
        Answer::Done(_) => "done",
        Answer::Cut => "cut",
        Answer::Refused(_) => "refused",
    }
}

// The stores that a finished call made.
fn stores_of(a: Answer) -> u64 {
    match a {
        Answer::Done(n) => n,
        _ => 0,
    }
}

// The map that the card gives, as a station makes it when it starts.
fn made(card: &[u8]) -> Map {
    match recovery::make_map(card) {
        Mapped::Is(m) => m,
        Mapped::Refused(_) => Map { low: 0, high: 0 },
    }
}

// One run: a fresh card over a zeroed disk, block 3 filled with 7 and saved under the allowance, recovered in full, read.
fn run(rt: &impl Print, allowance: u64) -> io::Result<()> {
    let mut card = [0u8; 2304];
    let disk = [0u8; 8192];
    let mut out = [0u8; 512];
    format::format(9, 8, 4, 16, &mut card);
    let map = made(&card);
    let saved = commit::commit(&mut card, map, &[3], &[7; 512], &[0; 64], allowance);
    let map = made(&card);
    let undone = recovery::recover(&mut card, map, u64::MAX);
    lookup::read(&card, &disk, 3, &mut out);
    println!(rt;
        "{allowance},{},{},{}",
        word(saved.answer),
        stores_of(undone.answer),
        out[0]
    )
}

fn main(rt: HostRuntime) -> io::Result<()> {
    println!(rt; "allowance,commit,recovery,byte")?;
    for allowance in 64..70 {
        run(&rt, allowance)?;
    }
    Ok(())
}
