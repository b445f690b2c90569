// Where four disk blocks in a row lie: one pass over the card's entries serves them all.
#![tactic(auto)]

ghost use Rattle.std.specs.Prelude.{◌≡◌, ◌+◌, ◌<◌, replicate};
ghost use Rattle.lookup.specs.Place.{found_by, sought_at, found_in};
ghost use Rattle.ring.specs.Fitted.{Framed};
ghost use Rattle.checks.specs.Passed.{Indexed};
ghost use Rattle.extent.specs.Four.{Four};

use lookup::Found;
use protocol::Geometry;
use ring::Fit;

// The same of all four: a card that is refused.
fn refused(r: u8) -> [Found; 4]
    ensures { result ≡ replicate 4 (Found.Refused r) }
{
    [Found::Refused(r); 4]
}

// Where block b + i lies on a card whose numbers are indexed; the sum may be no number of 64 bits.
fn place(g: Geometry, card: &[u8], index: &[u8; 640], b: u64, i: u64) -> Found
    requires { Indexed g card.now index.now }
    ensures { result ≡ found_by g card.now (b + i) 0 }
{
    if g.disk <= b {
        return Found::Outside(codec::block_size(g) as usize);
    }
    if g.disk - b <= i {
        return Found::Outside(codec::block_size(g) as usize);
    }
    lookup::locate(g, card, index, b + i)
}

// The four of them.
fn places(g: Geometry, card: &[u8], index: &[u8; 640], b: u64) -> [Found; 4]
    requires { Indexed g card.now index.now }
    ensures { Four (λ x. found_by g card.now x 0) b result }
{
    [
        place(g, card, index, b, 0),
        place(g, card, index, b, 1),
        place(g, card, index, b, 2),
        place(g, card, index, b, 3),
    ]
}

// The same of a card that passed checks 1 to 3.
fn seek(f: Fit, card: &[u8], b: u64) -> [Found; 4]
    requires { Framed card.now f }
    ensures { Four (sought_at f.geometry card.now) b result }
{
    let mut index = [0u8; 640];
    let v = checks::examine(f, card, &mut index);
    if v.refusal != 0 {
        return refused(v.refusal);
    }
    places(f.geometry, card, &index, b)
}

// Where disk blocks b to b + 3 lie, of a card over a disk of `long` bytes: what `lookup::find_in` tells of each.
pub fn find(card: &[u8], long: u64, b: u64) -> [Found; 4]
    ensures { Four (found_in card.now long) b result }
{
    let f = ring::fit_of(card, 2, 2);
    if f.refusal != 0 {
        return refused(f.refusal);
    }
    if long != ring::disk_length(f.geometry) {
        return refused(3);
    }
    seek(f, card, b)
}
