// The input of a program: reading it into lent bytes, how that came to its end, and what is left of it when the program has what it takes.
#![tactic(auto)]

ghost use Rattle.std.specs.Prelude.{◌≡◌, ℕ, List, take};
ghost use Rattle.std.specs.Borrow.{Bor};
ghost use Rattle.std.specs.Counts.{IsPrefixLen};

use std::io::Read;

// How a reading came to its end: the lent bytes are full, a read gave no byte, or a read failed.
#[derive(Clone, Copy)]
pub enum Ending {
    Full,
    Ended,
    Failed,
}

// How many bytes were read, and how that came to its end.
#[derive(Clone, Copy)]
pub struct Reading {
    pub count: usize,
    pub ending: Ending,
}

// Reads until the lent bytes are full, the input ends or a read fails. Nothing is read after a read of no byte, so that at a terminal one end of
// the input is enough. A read that a signal interrupts counts as one that failed.
pub fn fill(input: &mut impl Read, bytes: &mut [u8]) -> Reading
    ensures { IsPrefixLen result.count bytes.new }
{
    let mut count = 0;
    while count < bytes.len() {
        match input.read(&mut bytes[count..]) {
            Ok(0) => {
                return Reading {
                    count,
                    ending: Ending::Ended,
                };
            }
            Ok(more) => count += more,
            Err(_) => {
                return Reading {
                    count,
                    ending: Ending::Failed,
                };
            }
        }
    }
    Reading {
        count,
        ending: Ending::Full,
    }
}

// Reads once more, drops what came, and answers whether there may be more.
fn drop_some(input: &mut impl Read) -> bool {
    let mut rest = [0u8; 4096];
    input.read(&mut rest).is_ok_and(|count| count > 0)
}

// Reads on to the end of the input, so that whoever writes it can. A proved loop has to end, and nothing says that an input
// does: so it has more turns than any run uses up.
pub fn drop_rest(input: &mut impl Read) {
    for _ in 0..u64::MAX {
        if !drop_some(input) {
            break;
        }
    }
}

// Reads the input into the lent bytes, and has what was read answered, once. What is left of an input that is longer is read on after that: it can't
// change the answer.
pub fn answer<F: FnOnce(&[u8], Ending)>(input: &mut impl Read, bytes: &mut [u8], say: F)
    requires { F.IsAlwaysCallable say }
    ensures { (n : ℕ) × (read : Bor (List ℕ)) × (ending : Ending) × IsPrefixLen n bytes.new × (read.now ≡ take n bytes.new) × F.post say read ending tt }
{
    let reading = fill(input, bytes);
    say(&bytes[..reading.count], reading.ending);
    if let Ending::Full = reading.ending {
        drop_rest(input);
    }
}
