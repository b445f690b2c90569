// The table of recency: its check, one number or several moved to its front, and the table at start.
#![tactic(auto)]

ghost use Rattle.std.specs.Prelude.{◌≡◌, true, ◌++◌, ◌≤◌, ◌<◌, length, get_or, drop};
ghost use Rattle.protocol.specs.Below.{all_below};
ghost use Rattle.protocol.specs.Recency.{is_arranged, to_front, all_to_front, ascending};
ghost use Rattle.recency.specs.Moved.{Marks, Flags, is_marked, Packed, latest, Places};

// The station's table of recency: the numbers 0 to 127, each once, for the entries of these places, most recent first.
#[derive(Clone, Copy)]
pub struct Recency {
    pub order: [u8; 128],
}

// A mark at each of the first n numbers of a row.
pub fn marks_of(s: &[u8], n: usize) -> [u8; 256]
    requires { n ≤ length s.now }
    ensures { Marks s.now n result }
{
    let mut marks = [0u8; 256];
    for x in &s[..n] {
        marks[usize::from(*x)] = 1;
    }
    marks
}

// Whether the first 128 numbers are all marked, without a branch in the loop.
fn all_marked(marks: &[u8; 256]) -> bool
    requires { Flags marks.now }
    ensures { result ≡ all_below (is_marked marks.now) 128 }
{
    let mut all: u8 = 1;
    for mark in &marks[..128] {
        all &= *mark;
    }
    all == 1
}

// Whether a table is the numbers 0 to 127, each once.
pub fn is_arranged(table: &[u8]) -> bool
    ensures { result ≡ is_arranged table.now }
{
    if table.len() != 128 {
        return false;
    }
    let marks = marks_of(table, 128);
    all_marked(&marks)
}

// The number x moved to the front: it is put first, and each number before its old place goes one place back.
pub fn to_front(table: &mut [u8], x: u8)
    requires { (is_arranged table.old ≡ true) × (x < 128) }
    ensures { table.new ≡ to_front x table.old }
{
    let mut carry = x;
    // A `while`, which the compiler unrolls: a `for` was tried and takes three instructions more for each place.
    let mut at: usize = 0;
    while at < table.len() {
        let old = table[at];
        table[at] = carry;
        carry = old;
        at += 1;
        if old == x {
            return;
        }
    }
}

// The unmarked numbers of a table packed to its back, in their order. From the last place down, each number is put before those packed so
// far, and counts as packed where it is unmarked: no branch, since the marks fall as they may.
fn pack(table: &mut [u8], marks: &[u8; 256])
    requires { Flags marks.now }
    ensures { Packed (is_marked marks.now) table.old table.new }
{
    let mut to = table.len();
    for from in (0..table.len()).rev() {
        to -= 1;
        let x = table[from];
        table[to] = x;
        to += usize::from(marks[usize::from(x)]);
    }
}

// The first n numbers of `entries` in the first n places, the last one first.
fn put_first(table: &mut [u8], entries: &[u8; 128], n: usize)
    requires { (n ≤ 128) × (n ≤ length table.old) }
    ensures { table.new ≡ latest (λ i. get_or entries.now i 0) n ++ drop n table.old }
{
    for (i, x) in entries[..n].iter().enumerate() {
        table[n - 1 - i] = *x;
    }
}

// The first n numbers of `entries` moved to the front one after the other, at the cost of one walk over the table.
pub fn all_to_front(table: &mut [u8], entries: &[u8; 128], n: usize)
    requires { (is_arranged table.old ≡ true) × (n ≤ 128) × Places entries.now n }
    ensures { table.new ≡ all_to_front (λ i. get_or entries.now i 0) n table.old }
{
    let marks = marks_of(entries, n);
    pack(table, &marks);
    put_first(table, entries, n);
}

// The table at start.
pub fn ascend() -> Recency
    ensures { result.order ≡ ascending }
{
    Recency {
        order: std::array::from_fn(|i| i as u8),
    }
}

// A use of the entry x, in the table that the station lends.
pub fn touch(r: &mut Recency, x: u8)
    requires { (is_arranged r.old.order ≡ true) × (x < 128) }
    ensures { r.new.order ≡ to_front x r.old.order }
{
    to_front(&mut r.order, x);
}
