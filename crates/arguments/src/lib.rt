// The program's arguments as numbers, how many there are, and whether one came whole.
#![tactic(auto)]

ghost use Rattle.std.specs.Prelude.{◌≡◌, ◌-◌, ◌≤◌, min, length, take, IfSome};

use std::env::FillError;
use std::rt::Env;

// How many arguments there are, the program's own name among them.
pub fn count(env: &impl Env) -> usize {
    for i in 0..usize::MAX {
        if let Err(FillError::NotPresent) = env.arg(i, &mut [0u8; 1]) {
            return i;
        }
    }
    usize::MAX
}

// Argument i as a number.
pub fn number(env: &impl Env, i: usize) -> Option<u64> {
    let mut buf = [0u8; 4096];
    let n = env.arg(i, &mut buf).ok()?;
    text::parse(&buf[..n])
}

// Whether an argument was whole when it was read; says so where it was not.
pub fn is_whole(err: &impl Print, what: &[u8], read: Result<usize, FillError>) -> bool {
    let why: &[u8] = match read {
        Ok(_) => return true,
        Err(FillError::NotPresent) => b": Invalid argument\n",
        Err(FillError::TooLong) => b": File name too long\n",
    };
    let _ = err.write_all(what);
    let _ = err.write_all(why);
    false
}

// The numbers given for a save, in a row of fixed length, since nothing here takes a heap.
#[derive(Clone, Copy)]
pub struct ArgumentList {
    pub count: usize,
    pub list: [u64; 256],
}

// The numbers from argument 3 up to `end`, where each of them is one. The first 256 are kept: no card takes a save of more than 255, and one that
// refuses 256 for their count refuses more of them with the same number.
pub fn numbers(env: &impl Env, end: usize) -> Option<ArgumentList>
    ensures { IfSome result (λ s. (s.count ≤ 256) × (s.count ≤ length s.list) × (s.count ≡ length (take s.count s.list)) × (s.count ≡ min (end - 3) 256)) }
{
    let mut list = [0u64; 256];
    let mut kept = 0;
    for i in 3..end {
        let b = number(env, i)?;
        if kept < 256 {
            list[kept] = b;
            kept += 1;
        }
    }
    Some(ArgumentList { count: kept, list })
}
