// Unsigned numbers in groups of seven bits, and signed values as alternating unsigned numbers.
#![tactic(auto)]

ghost use Rattle.std.specs.Prelude.{◌≡◌, ◌+◌, ◌≤◌, length, drop};
ghost use Rattle.number.specs.Number.{number_bytes, number_at, Placed};
ghost use Rattle.number.specs.laws.Steps.{read_go};
ghost use Rattle.number.specs.Wrote.{Wrote};
ghost use Rattle.number.specs.Value.{alternating_of, signed_of};

use refusal::Refusal;

// What reading one number gives: the number and the place after it, or the refusal.
pub type Number = Result<(u32, usize), Refusal>;

// How many numbers a group of seven bits says, those below which two, three and four groups are enough, and the most that a fifth byte says.
const GROUP: u32 = 128;

const TWO_GROUPS: u32 = GROUP * GROUP;

const THREE_GROUPS: u32 = GROUP * TWO_GROUPS;

const FOUR_GROUPS: u32 = GROUP * THREE_GROUPS;

const FIFTH_MOST: u8 = 15;

// The first byte that says that another follows.
const MORE: u8 = GROUP as u8;

// Reads what is left of a number, `left` + 1 bytes at most: the last that may come, its fifth, holds only four bits.
fn read_groups(s: &[u8], at: usize, left: u32) -> Number
    requires { left ≤ 4 }
    ensures { result ≡ read_go left at (drop at s.now) }
{
    if at >= s.len() {
        return Err(Refusal::EndsFirst);
    }
    let b = s[at];
    if left == 0 {
        if FIFTH_MOST < b {
            return Err(Refusal::FifthAbove);
        }
        return Ok((u32::from(b), at + 1));
    }
    if b < MORE {
        return Ok((u32::from(b), at + 1));
    }
    let (m, next) = read_groups(s, at + 1, left - 1)?;
    if m == 0 {
        return Err(Refusal::LastIsZero);
    }
    Ok((u32::from(b % MORE) + GROUP * m, next))
}

// Reads the number that stands at `at`.
pub fn read_number(s: &[u8], at: usize) -> Number
    ensures { result ≡ number_at s.now at }
{
    read_groups(s, at, 4)
}

// How many bytes a number takes, so that a caller knows before it writes.
pub fn number_length(n: u32) -> usize
    ensures { result ≡ length (number_bytes n) }
{
    if n < GROUP {
        1
    } else if n < TWO_GROUPS {
        2
    } else if n < THREE_GROUPS {
        3
    } else if n < FOUR_GROUPS {
        4
    } else {
        5
    }
}

// Writes a number that fits: a group at a time, the lowest first. What it gives is the place after it.
fn write_groups(buf: &mut [u8], at: usize, n: u32) -> usize
    requires { at + length (number_bytes n) ≤ length buf.old }
    ensures { Wrote buf.old at (number_bytes n) result buf.new }
{
    let mut i = at;
    let mut m = n;
    while m >= GROUP {
        buf[i] = (GROUP + m % GROUP) as u8;
        m = m / GROUP;
        i += 1;
    }
    buf[i] = m as u8;
    i + 1
}

// Writes a number at `at`: the place after it, or nothing where it doesn't fit from there on.
pub fn write_number(buf: &mut [u8], at: usize, n: u32) -> Option<usize>
    ensures { Placed buf.old at (number_bytes n) result buf.new }
{
    let room = buf.len().checked_sub(at)?;
    if room < number_length(n) {
        return None;
    }
    Some(write_groups(buf, at, n))
}

// The number that a value is written as. Below zero -1 - v is cast, not v: only it is in the range of both types.
pub fn alternating(v: i32) -> u32
    ensures { result ≡ alternating_of v }
{
    if v < 0 {
        2 * ((-1 - v) as u32) + 1
    } else {
        2 * (v as u32)
    }
}

// The value that a number stands for.
pub fn signed(n: u32) -> i32
    ensures { result ≡ signed_of n }
{
    let half = n / 2;
    if n % 2 == 0 {
        half as i32
    } else {
        -1 - (half as i32)
    }
}
