// Format: the control bytes, slots and entries zeroed, the header of version 2 written, the data blocks left.
#![tactic(auto)]

ghost use Rattle.std.specs.Prelude.{◌≡◌, true, ◌≤◌, length};
ghost use Rattle.numbers.specs.Bytes.{patch};
ghost use Rattle.protocol.specs.Table.{geometry};
ghost use Rattle.protocol.specs.Layout.{good_geometry, card_length};
ghost use Rattle.protocol.specs.Format.{outcome_of, format_refusal, formatted, after_format};
ghost use Rattle.format.specs.Fields.{field_bytes};

use codec::{card_length, good_geometry};
use numbers::{fill, put};
use protocol::{Geometry, Outcome};

// Writes the header's fields over zeros, the length last: until then the header is refused with 1.
fn put_fields(card: &mut [u8], g: Geometry)
    requires { 16 ≤ length card.old }
    ensures { card.new ≡ patch card.old 0 (field_bytes g) }
{
    put(card, 12, 4, g.disk);
    put(card, 8, 4, g.blocks);
    put(card, 6, 2, g.slots);
    put(card, 5, 1, g.k);
    put(card, 4, 1, 2);
    put(card, 0, 4, 64);
}

// Zeros all up to the data blocks, the old header first, and then writes the header: a format cut short leaves no card that is accepted with
// a part of what it held before.
fn lay_out(card: &mut [u8], g: Geometry)
    requires { (good_geometry g ≡ true) × (length card.old ≡ card_length g) }
    ensures { card.new ≡ formatted 2 g card.old }
{
    fill(card, 0, (128 + 8 * g.slots + 16 * g.blocks) as usize, 0);
    put_fields(card, g);
}

// Formats the card, or refuses and leaves every byte of it. The limits are tested first: outside of them the length may not fit a number.
pub fn format(k: u64, slots: u64, blocks: u64, disk: u64, card: &mut [u8]) -> Outcome
    ensures answer { result ≡ outcome_of (format_refusal (geometry k slots blocks disk) card.old) }
    ensures card { card.new ≡ after_format 2 (geometry k slots blocks disk) card.old }
{
    let g = Geometry {
        k,
        slots,
        blocks,
        disk,
    };
    if good_geometry(g) {
        if card.len() as u64 == card_length(g) {
            lay_out(card, g);
            Outcome::Done
        } else {
            Outcome::Refused(2)
        }
    } else {
        Outcome::Refused(1)
    }
}
