// Big-endian numbers in byte slices, copies and fills.
#![tactic(auto)]

ghost use Rattle.std.specs.Prelude.{◌≡◌, ◌+◌, ◌≤◌, length, replicate};
ghost use Rattle.numbers.specs.Bytes.{bytes_be, part, patch};
ghost use Rattle.numbers.specs.Post.{Number};

// The number in `width` bytes of s from `at` on, the first byte highest.
pub fn get(s: &[u8], at: usize, width: usize) -> u64
    requires { (at + width ≤ length s.now) × (width ≤ 8) }
    ensures { Number s.now at width result }
{
    let mut r: u64 = 0;
    for b in &s[at..at + width] {
        r = r * 256 + *b as u64;
    }
    r
}

// Writes the `width` lowest bytes of v from `at` on, the highest first. Goes from the last byte to the
// first, so that each is a remainder by 256.
pub fn put(s: &mut [u8], at: usize, width: usize, v: u64)
    requires { (at + width ≤ length s.old) × (width ≤ 8) }
    ensures { s.new ≡ patch s.old at (bytes_be width v) }
{
    let mut rest = v;
    for i in (0..width).rev() {
        s[at + i] = (rest % 256) as u8;
        rest /= 256;
    }
}

// Copies n bytes of src from `from` on into dst from `to` on. Both parts start at 0 and are as long, so that the compiler makes vector moves
// of the loop; `copy_from_slice` would call `memmove`, which a board need not have.
pub fn copy(dst: &mut [u8], to: usize, src: &[u8], from: usize, n: usize)
    requires { (to + n ≤ length dst.old) × (from + n ≤ length src.now) }
    ensures { dst.new ≡ patch dst.old to (part src.now from n) }
{
    let place = &mut dst[to..to + n];
    for (i, b) in src[from..from + n].iter().enumerate() {
        place[i] = *b;
    }
}

// Makes n bytes of dst from `at` on v. By a loop, which the compiler makes one `memset` of: std's `fill` stores the last byte by itself.
pub fn fill(dst: &mut [u8], at: usize, n: usize, v: u8)
    requires { at + n ≤ length dst.old }
    ensures { dst.new ≡ patch dst.old at (replicate n v) }
{
    for b in &mut dst[at..at + n] {
        *b = v;
    }
}
