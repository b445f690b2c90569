// The preview of a commit: what it would answer, and into which data block it would put each of its blocks. Nothing is stored.
#![tactic(auto)]

ghost use Rattle.std.specs.Prelude.{◌≡◌, cond, ◌≤◌, length, eqb};
ghost use Rattle.protocol.specs.Preview.{preview_answer, blocks_after};
ghost use Rattle.preview.specs.ToldBlocks.{ToldBlocks};

use protocol::{Answer, Map};

// Tells the data blocks that were found, each as a number of its own.
fn tell(found: &[u8; 128], blocks: &mut [u32])
    requires { length blocks.old ≤ 128 }
    ensures { ToldBlocks found.now blocks.old blocks.new }
{
    for i in 0..blocks.len() {
        blocks[i] = u32::from(found[i]);
    }
}

// The data's length, or 0 where the output is not of n numbers: no n blocks are so short, so `admit` refuses it with 9 in its turn. Of no numbers
// it asks 8 first.
fn size_asked(n: usize, told: usize, long: usize) -> usize
    ensures { result ≡ cond (eqb told n) long 0 }
{
    if told == n { long } else { 0 }
}

// What a commit with ample allowance would answer: done with the count of its stores, and then each number's data block in `blocks`; or
// refused with 1, 2, 4 to 11, 14 and 15, and then `blocks` is left.
pub fn preview(card: &[u8], map: Map, numbers: &[u64], data: &[u8], blocks: &mut [u32]) -> Answer
    ensures answer { result ≡ preview_answer card.now map numbers.now «data».now blocks.old }
    ensures blocks { blocks.new ≡ blocks_after card.now map numbers.now «data».now blocks.old }
{
    let n = numbers.len();
    let size = size_asked(n, blocks.len(), data.len());
    let mut index = [0u8; 640];
    let a = plan::admit(card, map, numbers, size, 512, &mut index);
    if a.refusal != 0 {
        return Answer::Refused(a.refusal);
    }
    let g = a.geometry;
    let mut found = [0u8; 128];
    freemap::take(map, plan::search_start(g, a.head), n, &mut found);
    tell(&found, blocks);
    Answer::Done(plan::count_of(g, n))
}
