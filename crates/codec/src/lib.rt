// The limits of a geometry, an entry's fields and its sixteen bytes, and a single entry read and written by value.
#![tactic(auto)]

ghost use Rattle.std.specs.Prelude.{◌≡◌, true, ◌+◌, ◌*◌, ◌≤◌, length};
ghost use Rattle.numbers.specs.Bytes.{patch};
ghost use Rattle.protocol.specs.Layout.{good_k, good_slots, good_blocks, good_disk, good_geometry, block_size, card_length};
ghost use Rattle.protocol.specs.Entry.{entry_in, entry_bytes, in_use, is_modified, has_log_role, was_modified, good_entry};
ghost use Rattle.protocol.specs.Format.{entry_refusal, decoded, encoded};

use numbers::{get, put};
use protocol::{Decoded, Encoded, Entry, FRESH, Geometry, Outcome};

// k, from 9 to 12.
pub fn good_k(k: u64) -> bool
    ensures { result ≡ good_k k }
{
    (9 <= k) & (k <= 12)
}

// S, a multiple of 8 from 8 to 256.
pub fn good_slots(s: u64) -> bool
    ensures { result ≡ good_slots s }
{
    ((8 <= s) & (s <= 256)) & (s % 8 == 0)
}

// N, a multiple of 4 from 4 to 128.
pub fn good_blocks(n: u64) -> bool
    ensures { result ≡ good_blocks n }
{
    ((4 <= n) & (n <= 128)) & (n % 4 == 0)
}

// D, from 1 to 65,536.
pub fn good_disk(d: u64) -> bool
    ensures { result ≡ good_disk d }
{
    (1 <= d) & (d <= 65536)
}

// All four within their limits.
pub fn good_geometry(g: Geometry) -> bool
    ensures { result ≡ good_geometry g }
{
    good_k(g.k) & (good_slots(g.slots) & (good_blocks(g.blocks) & good_disk(g.disk)))
}

// B, two to the power k.
pub fn block_size(g: Geometry) -> u64
    requires { good_geometry g ≡ true }
    ensures { result ≡ block_size g }
{
    1u64 << g.k
}

// n·B: where block n of a row of blocks begins, and how long n blocks are. A shift by k places, for boards that have no wide multiply.
pub fn block_offset(g: Geometry, n: u64) -> u64
    requires { (good_geometry g ≡ true) × (n ≤ 65536) }
    ensures { result ≡ n * block_size g }
{
    n << g.k
}

// The length of a card. Within the limits no sum wraps.
pub fn card_length(g: Geometry) -> u64
    requires { good_geometry g ≡ true }
    ensures { result ≡ card_length g }
{
    128 + 8 * g.slots + 16 * g.blocks + block_offset(g, g.blocks)
}

// V, bit 80.
pub fn in_use(e: Entry) -> bool
    ensures { result ≡ in_use e }
{
    e.flags / 0x80 % 2 == 1
}

// M, bit 02.
pub fn is_modified(e: Entry) -> bool
    ensures { result ≡ is_modified e }
{
    e.flags / 0x02 % 2 == 1
}

// R, bit 01.
pub fn has_log_role(e: Entry) -> bool
    ensures { result ≡ has_log_role e }
{
    e.flags % 2 == 1
}

// P, bit 04.
pub fn was_modified(e: Entry) -> bool
    ensures { result ≡ was_modified e }
{
    e.flags / 0x04 % 2 == 1
}

// What check 5 allows with the version v, n data blocks and d disk blocks. No branch: all of it is computed, which is cheaper than to stop early.
pub fn good_entry(v: u64, n: u64, d: u64, e: Entry) -> bool
    ensures { result ≡ good_entry v n d e }
{
    let unused = (e.flags == 0) & ((e.number == 0) & ((e.previous == 0) & (e.current == 0)));
    let over = (v == 2) & ((e.flags == 0x86) | (e.flags == 0x87));
    let allowed = (e.flags == 0x80) | ((e.flags == 0x82) | ((e.flags == 0x83) | over));
    let held = ((e.previous as u64) < n) | (e.previous == FRESH);
    unused | (allowed & ((e.number < d) & (((e.current as u64) < n) & held)))
}

// The entry that stands at byte `at`.
pub fn entry_at(s: &[u8], at: usize) -> Entry
    requires { at + 16 ≤ length s.now }
    ensures { result ≡ entry_in s.now at }
{
    let number = get(s, at + 1, 7);
    let previous = get(s, at + 8, 4);
    let current = get(s, at + 12, 4);
    Entry {
        flags: s[at],
        number,
        previous: previous as u32,
        current: current as u32,
    }
}

// Writes the entry's sixteen bytes at byte `at`. The number is put in eight, as one store; the flags then take the first.
pub fn put_entry(s: &mut [u8], at: usize, e: Entry)
    requires { at + 16 ≤ length s.old }
    ensures { s.new ≡ patch s.old at (entry_bytes e) }
{
    put(s, at, 8, e.number);
    put(s, at + 8, 4, e.previous as u64);
    put(s, at + 12, 4, e.current as u64);
    s[at] = e.flags;
}

// The refusal of a single entry: 1 for a version not 1 or 2, and for N or D outside its limits, 5 for an entry that check 5 forbids, 0 for none.
fn entry_refusal(v: u64, n: u64, d: u64, e: Entry) -> u8
    ensures { result ≡ entry_refusal v n d e }
{
    let known = (1 <= v) & (v <= 2);
    if known & (good_blocks(n) & good_disk(d)) {
        if good_entry(v, n, d, e) { 0 } else { 5 }
    } else {
        1
    }
}

// A single entry, read from sixteen bytes.
pub fn read_entry(bytes: [u8; 16], version: u64, n: u64, d: u64) -> Decoded
    ensures { result ≡ decoded version n d bytes }
{
    let e = entry_at(&bytes, 0);
    let refusal = entry_refusal(version, n, d, e);
    if refusal == 0 {
        Decoded::Fields(e)
    } else {
        Decoded::Refused(refusal)
    }
}

// A single entry, written as sixteen bytes: zeros where it is refused.
pub fn write_entry(e: Entry, version: u64, n: u64, d: u64) -> Encoded
    ensures { result ≡ encoded version n d e }
{
    let mut bytes = [0u8; 16];
    let refusal = entry_refusal(version, n, d, e);
    if refusal == 0 {
        put_entry(&mut bytes, 0, e);
        Encoded {
            outcome: Outcome::Done,
            bytes,
        }
    } else {
        Encoded {
            outcome: Outcome::Refused(refusal),
            bytes,
        }
    }
}
