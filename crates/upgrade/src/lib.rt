// Upgrade: a settled version 1 card becomes one of version 2 by one store, of the header's first word.
#![tactic(auto)]

ghost use Rattle.std.specs.Prelude.{◌≡◌, true};
ghost use Rattle.numbers.specs.Bytes.{bytes_be, part};
ghost use Rattle.protocol.specs.Layout.{good_geometry};
ghost use Rattle.protocol.specs.Store.{card as on_card, answer_of, after_on};
ghost use Rattle.protocol.specs.Upgrade.{version_store, upgrade_work};
ghost use Rattle.upgrade.specs.Examined.{Examined};

use protocol::{Answer, Geometry};

// The word as a number: length 64, version 2, k and S.
fn first_word(g: Geometry) -> u64
    requires { good_geometry g ≡ true }
    ensures { bytes_be 8 result ≡ (version_store g).bytes }
{
    0x40_0200_0000 + 65536 * g.k + g.slots
}

// The word as the first eight of sixteen bytes, for whoever stores it elsewhere than in memory.
pub fn word_bytes(g: Geometry) -> [u8; 16]
    requires { good_geometry g ≡ true }
    ensures { part result 0 8 ≡ (version_store g).bytes }
{
    let mut bytes = [0u8; 16];
    numbers::put(&mut bytes, 0, 8, first_word(g));
    bytes
}

// What upgrade finds first: its refusal, and of a card that is not refused the geometry.
#[derive(Clone, Copy)]
pub struct Checked {
    pub refusal: u8,
    pub geometry: Geometry,
}

// 1 of any version but 1, 2, and 4 to 7.
pub fn examine(card: &[u8]) -> Checked
    ensures { Examined card.now result }
{
    let f = ring::fit_of(card, 1, 1);
    let geometry = f.geometry;
    if f.refusal != 0 {
        return Checked {
            refusal: f.refusal,
            geometry,
        };
    }
    Checked {
        refusal: checks::card_refusal(f, card),
        geometry,
    }
}

// Makes a version 1 card that is settled one of version 2. Its store happens where the allowance is 1 or more. Refused before it: 1 of any version
// but 1, 2, and 4 to 7.
pub fn upgrade(card: &mut [u8], allowance: u64) -> Answer
    ensures answer { result ≡ answer_of allowance (upgrade_work card.old) }
    ensures card { card.new ≡ after_on on_card allowance (upgrade_work card.old) card.old }
{
    let s = examine(card);
    if s.refusal != 0 {
        return Answer::Refused(s.refusal);
    }
    let word = first_word(s.geometry);
    stores::make_word(card, 0, word, stores::credit(1, allowance));
    stores::answer(1, allowance)
}
