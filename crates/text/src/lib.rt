// The characters that a program prints: numbers in groups of three, bytes in hexadecimal, lines of a listing; and an argument as a number.
#![tactic(auto)]

ghost use Rattle.std.specs.Prelude.{◌≡◌, ◌/◌, ◌^◌, ◌<◌};
ghost use Rattle.protocol.specs.Below.{first_below};
ghost use Rattle.text.specs.Text.{decimal_mark, number_mark, number_field, plain_mark, plain_field, marked_at, glyph, hex_mark, hex_field};
ghost use Rattle.text.specs.Text.{shown, place_mark, byte_mark, list_mark, list_line, is_digit, parsed, same_text};

// The powers of ten that a u64 holds.
const POWERS: [u64; 20] = [
    1,
    10,
    100,
    1000,
    10000,
    100000,
    1000000,
    10000000,
    100000000,
    1000000000,
    10000000000,
    100000000000,
    1000000000000,
    10000000000000,
    100000000000000,
    1000000000000000,
    10000000000000000,
    100000000000000000,
    1000000000000000000,
    10000000000000000000,
];

// Ten to the power e.
fn power(e: usize) -> u64
    requires { e < 20 }
    ensures { (result ≡ 10 ^ e) × (0 < result) }
{
    POWERS[e]
}

// The digit of n that counts ten to the power e, or a space.
fn decimal_mark(n: u64, e: usize) -> u8
    requires { e < 20 }
    ensures { result ≡ decimal_mark n e }
{
    let p = power(e);
    if (n < p) & (0 < e) {
        b' '
    } else {
        48 + (n / p % 10) as u8
    }
}

// Column k of a number, counted from its right end.
fn number_mark(n: u64, k: usize) -> u8
    requires { k < 26 }
    ensures { result ≡ number_mark n k }
{
    if k % 4 != 3 {
        return decimal_mark(n, k - k / 4);
    }
    if n < power(3 * (k / 4) + 3) {
        b' '
    } else {
        b','
    }
}

// A number with a comma before each three digits, at the right end of its field.
pub fn number(n: u64) -> [u8; 26]
    ensures { result ≡ number_field n }
{
    std::array::from_fn(|j| number_mark(n, 25 - j))
}

// Column k of a number without commas, counted from its right end.
fn plain_mark(n: u64, k: usize) -> u8
    requires { k < 26 }
    ensures { result ≡ plain_mark n k }
{
    if k < 20 { decimal_mark(n, k) } else { b' ' }
}

// A number without commas, at the right end of its field.
pub fn plain(n: u64) -> [u8; 26]
    ensures { result ≡ plain_field n }
{
    std::array::from_fn(|j| plain_mark(n, 25 - j))
}

// How many columns at the left of a field are blank: a sentence prints the rest.
pub fn blank(field: &[u8; 26]) -> usize
    ensures { result ≡ first_below (marked_at field.now) 26 }
{
    field.iter().position(|mark| *mark != b' ').unwrap_or(26)
}

// A hexadecimal digit, in capitals.
fn glyph(d: u8) -> u8
    requires { d < 16 }
    ensures { result ≡ glyph d }
{
    if d < 10 { 48 + d } else { 55 + d }
}

// Column j of sixteen bytes in hexadecimal.
fn hex_mark(bytes: &[u8; 16], j: usize) -> u8
    requires { j < 32 }
    ensures { result ≡ hex_mark bytes.now j }
{
    let b = bytes[j / 2];
    if j % 2 == 0 {
        glyph(b / 16)
    } else {
        glyph(b % 16)
    }
}

// Sixteen bytes in hexadecimal.
pub fn hex(bytes: &[u8; 16]) -> [u8; 32]
    ensures { result ≡ hex_field bytes.now }
{
    std::array::from_fn(|j| hex_mark(bytes, j))
}

// A byte as a character, or a full stop where it is not printable.
fn shown(b: u8) -> u8
    ensures { result ≡ shown b }
{
    if (32 <= b) & (b <= 126) { b } else { b'.' }
}

// Column j of a place in hexadecimal.
fn place_mark(at: u64, j: usize) -> u8
    requires { j < 4 }
    ensures { result ≡ place_mark at j }
{
    let shift = 4 * (3 - j);
    glyph(((at >> shift) % 16) as u8)
}

// Column k of bytes in hexadecimal with a space behind each.
fn byte_mark(bytes: &[u8; 16], k: usize) -> u8
    requires { k < 48 }
    ensures { result ≡ byte_mark bytes.now k }
{
    if k % 3 == 2 {
        return b' ';
    }
    hex_mark(bytes, 2 * (k / 3) + k % 3)
}

// Column j of a line of the listing.
fn list_mark(bytes: &[u8; 16], at: u64, j: usize) -> u8
    requires { j < 75 }
    ensures { result ≡ list_mark at bytes.now j }
{
    if j < 4 {
        return place_mark(at, j);
    }
    if (6 <= j) & (j <= 29) {
        return byte_mark(bytes, j - 6);
    }
    if (31 <= j) & (j <= 54) {
        return byte_mark(bytes, j - 7);
    }
    if (57 <= j) & (j <= 72) {
        return shown(bytes[j - 57]);
    }
    if (j == 56) | (j == 73) {
        return b'|';
    }
    if j == 74 { b'\n' } else { b' ' }
}

// A line of a listing: where its first byte stands, sixteen bytes in hexadecimal, and their characters.
pub fn list_line(bytes: &[u8; 16], at: u64) -> [u8; 75]
    ensures { result ≡ list_line at bytes.now }
{
    std::array::from_fn(|j| list_mark(bytes, at, j))
}

fn is_digit(b: u8) -> bool
    ensures { result ≡ is_digit b }
{
    (48 <= b) & (b <= 57)
}

// Reads decimal digits, at least one, as a number of 64 bits.
pub fn parse(text: &[u8]) -> Option<u64>
    ensures { result ≡ parsed text.now }
{
    if text.is_empty() {
        return None;
    }
    let mut value: u64 = 0;
    for b in text {
        if !is_digit(*b) {
            return None;
        }
        value = value.checked_mul(10)?.checked_add(u64::from(*b - 48))?;
    }
    Some(value)
}

// Whether two texts are the same.
pub fn same(a: &[u8], b: &[u8]) -> bool
    ensures { result ≡ same_text a.now b.now }
{
    a == b
}
