// Which of the wire's slots are free, a bit each: the lowest is found by counting zeros, the free ones by counting ones.
#![tactic(auto)]

ghost use Rattle.std.specs.Prelude.{◌≡◌, Bool, ℕ, ◌-◌, ◌^◌, ◌<◌, ◌≤◌, nat_lt};
ghost use Rattle.std.specs.List.{position};
ghost use Rattle.std.specs.Int.Count.{count_trailing_zeros};
ghost use Rattle.slots.specs.Free.{word_bits, slot_count, first_free, count_free, given_at, marked_at};
ghost use Rattle.slots.specs.Words.{Maps, Took};

// How many words there are, how many bits a word has, and how many slots there are: one for each bit.
pub const WORDS: usize = 4;

const BITS: usize = 64;

pub const SLOTS: usize = BITS * WORDS;

// The lowest bit of x that is set.
fn low(x: u64) -> usize
    requires { 0 < x }
    ensures { (result ≡ count_trailing_zeros word_bits x) × (result < word_bits) }
{
    x.trailing_zeros() as usize
}

// x without that bit.
fn rest(x: u64) -> u64
    requires { 0 < x }
    ensures { result ≡ x - 2 ^ count_trailing_zeros word_bits x }
{
    x - (1 << low(x))
}

// The first word with a slot that is free.
fn first_word(free: &[u64; WORDS]) -> Option<usize>
    ensures { result ≡ position (nat_lt 0) free.now }
{
    free.iter().position(|word| 0 < *word)
}

// The lowest free slot; as many as there are where none is free.
pub fn lowest(free: &[u64; WORDS]) -> usize
    ensures { (result ≤ slot_count) × ((f : ℕ → Bool) → Maps f free.now → result ≡ first_free f) }
{
    match first_word(free) {
        Some(j) => BITS * j + low(free[j]),
        None => SLOTS,
    }
}

// The lowest free slot, which is then taken; as many as there are where none is free, and nothing changes.
pub fn take(free: &mut [u64; WORDS]) -> usize
    ensures { (result ≤ slot_count) × ((f : ℕ → Bool) → Maps f free.old → Took f free.new result) }
{
    match first_word(free) {
        Some(j) => {
            let word = free[j];
            free[j] = rest(word);
            BITS * j + low(word)
        }
        None => SLOTS,
    }
}

// The slot is free again; one past the end changes nothing.
pub fn give(free: &mut [u64; WORDS], slot: usize)
    ensures { (f : ℕ → Bool) → Maps f free.old → Maps (given_at f slot) free.new }
{
    if SLOTS <= slot {
        return;
    }
    free[slot / BITS] |= 1 << (slot % BITS);
}

// The slot is free again where it is clear.
pub fn mark(free: &mut [u64; WORDS], slot: usize, clear: bool)
    ensures { (f : ℕ → Bool) → Maps f free.old → Maps (marked_at clear f slot) free.new }
{
    if clear {
        give(free, slot);
    }
}

// How many slots are free.
pub fn count(free: &[u64; WORDS]) -> usize
    ensures { (result ≤ slot_count) × ((f : ℕ → Bool) → Maps f free.now → result ≡ count_free f) }
{
    free.iter().map(|word| word.count_ones() as usize).sum()
}
