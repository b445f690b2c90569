// The program's arguments. Each command answers nothing where its arguments could not be read.
ghost use Rattle.std.specs.Prelude.{◌≡◌, ◌≤◌, length, IfSome};
ghost use Rattle.service.specs.Words.{word_of};

use crate::files;
use arguments::{is_whole, number};
use protocol::Geometry;
use std::fs::File;
use std::rt::Env;

// Room for an argument: no path that the system takes is longer.
const ROOM: usize = 4096;

// The commands.
#[derive(Clone, Copy)]
pub enum Word {
    Show,
    Block,
    Preview,
    Recover,
    Upgrade,
    Format,
    Other,
}

// The command that a word names, by the word whole.
#[tactic(auto, unfolding(crate::specs::Words::word_of))]
fn spoken(s: &[u8]) -> Word
    ensures { result ≡ word_of s.now }
{
    match s {
        _ if text::same(s, b"show") => Word::Show,
        _ if text::same(s, b"block") => Word::Block,
        _ if text::same(s, b"preview") => Word::Preview,
        _ if text::same(s, b"recover") => Word::Recover,
        _ if text::same(s, b"upgrade") => Word::Upgrade,
        _ if text::same(s, b"format") => Word::Format,
        _ => Word::Other,
    }
}

pub fn command(rt: &HostRuntime) -> Word {
    let mut buf = [0u8; ROOM];
    match rt.arg(1, &mut buf) {
        Ok(n) => spoken(&buf[..n]),
        Err(_) => Word::Other,
    }
}

// Argument i at the front of the buffer, and its length; or none, and it is said that it did not come whole.
fn take(rt: &HostRuntime, i: usize, what: &[u8], buf: &mut [u8]) -> Option<usize>
    ensures { IfSome result (λ n. n ≤ length buf.new) }
{
    let read = rt.arg(i, buf);
    if is_whole(&rt.stderr(), what, read) {
        read.ok()
    } else {
        None
    }
}

pub fn show(rt: &HostRuntime) -> Option<()> {
    let mut path = [0u8; ROOM];
    if let Some(n) = take(rt, 2, b"CARD", &mut path) {
        files::show(rt, &path[..n]);
    }
    Some(())
}

pub fn block(rt: &HostRuntime) -> Option<()> {
    let mut card = [0u8; ROOM];
    let mut disk = [0u8; ROOM];
    let b = number(rt, 4)?;
    let Some(c) = take(rt, 2, b"CARD", &mut card) else {
        return Some(());
    };
    if let Some(d) = take(rt, 3, b"DISK", &mut disk) {
        files::block(rt, &card[..c], &disk[..d], b);
    }
    Some(())
}

pub fn preview(rt: &HostRuntime, count: usize) -> Option<()> {
    let s = arguments::numbers(rt, count)?;
    let mut path = [0u8; ROOM];
    if let Some(n) = take(rt, 2, b"CARD", &mut path) {
        outlook::preview(rt, &path[..n], &s.list[..s.count]);
    }
    Some(())
}

// Without an allowance a recovery or an upgrade is made in full.
fn allowance(rt: &HostRuntime, count: usize) -> Option<u64> {
    if count == 3 {
        return Some(u64::MAX);
    }
    number(rt, 3)
}

// A change of the card under an allowance: a recovery, or an upgrade.
pub fn update<F: FnOnce(&HostRuntime, &[u8], &mut File, &mut [u8], u64)>(
    rt: &HostRuntime,
    count: usize,
    change: F,
) -> Option<()>
    requires { F.IsAlwaysCallable change }
{
    let a = allowance(rt, count)?;
    let mut path = [0u8; ROOM];
    if let Some(n) = take(rt, 2, b"CARD", &mut path) {
        files::update(rt, &path[..n], change, a);
    }
    Some(())
}

pub fn format(rt: &HostRuntime) -> Option<()> {
    let g = Geometry {
        k: number(rt, 3)?,
        slots: number(rt, 4)?,
        blocks: number(rt, 5)?,
        disk: number(rt, 6)?,
    };
    let mut path = [0u8; ROOM];
    if let Some(n) = take(rt, 2, b"CARD", &mut path) {
        files::format(rt, &path[..n], g);
    }
    Some(())
}
