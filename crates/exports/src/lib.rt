// The calls for C and Rust, as crate exports_c exports them: include/adzequarry.h has their declarations. An enum can't cross to C, so an answer is packed into
// one number.
#![tactic(auto)]

ghost use Rattle.std.specs.Prelude.{◌≡◌};
ghost use Rattle.number.specs.Number.{number_bytes, number_at, put_answer, put_bytes};
ghost use Rattle.number.specs.Value.{alternating_of, signed_of};
ghost use Rattle.rows.specs.Rows.{read_outcome, write_outcome};
ghost use Rattle.exports.specs.Packed.{packed_number, packed_put, packed_answer, packed_verdict, Judged, packed_run};
ghost use Rattle.exports.specs.Unpacked.{AnswerFits, VerdictFits, RunFits};
ghost use Rattle.layout.specs.Calls.{made_outcome, run_outcome};

use record::Answer;
use refusal::Refusal;
use verdict::Verdict;

// The number at a place, with how many bytes it takes.
pub fn adze_read_number(bytes: &[u8], at: usize) -> u64
    ensures { result ≡ packed_number at (number_at bytes.now at) }
{
    match number::read_number(bytes, at) {
        Ok((n, next)) => u64::from(n) + 1099511627776 * ((next - at) as u64),
        Err(k) => 4294967296 * u64::from(k.number()),
    }
}

// Writes a number at a place.
pub fn adze_write_number(bytes: &mut [u8], at: usize, n: u32) -> u64
    ensures { (result ≡ packed_put at (put_answer bytes.old at (number_bytes n))) × (bytes.new ≡ put_bytes bytes.old at (number_bytes n)) }
{
    match number::write_number(bytes, at, n) {
        Some(next) => 1099511627776 * ((next - at) as u64),
        None => 4294967296 * (Refusal::TooShort as u64),
    }
}

// The number that a value is written as.
pub fn adze_alternating(v: i32) -> u32
    ensures { result ≡ alternating_of v }
{
    number::alternating(v)
}

// The value that a number stands for.
pub fn adze_signed(n: u32) -> i32
    ensures { result ≡ signed_of n }
{
    number::signed(n)
}

// A record's answer as one number.
fn packed(a: Answer) -> u64
    requires { AnswerFits a }
    ensures { result ≡ packed_answer a }
{
    match a {
        Ok(n) => n as u64,
        Err((k, n)) => 4294967296 * u64::from(k.number()) + n as u64,
    }
}

// Reads a record into lent rows.
pub fn adze_read_record(bytes: &[u8], rows: &mut [u32]) -> u64
    ensures { (result ≡ packed_answer (read_outcome bytes.now rows.old).answer) ×
        (rows.new ≡ (read_outcome bytes.now rows.old).lent) }
{
    let a = rows::read_record(bytes, rows);
    packed(a)
}

// Writes the record of lent rows into lent bytes.
pub fn adze_write_record(rows: &[u32], bytes: &mut [u8]) -> u64
    ensures { (result ≡ packed_answer (write_outcome rows.now bytes.old).answer) ×
        (bytes.new ≡ (write_outcome rows.now bytes.old).lent) }
{
    let a = writer::write_record(rows, bytes);
    packed(a)
}

// A verdict as one number.
fn packed_verdict(v: Verdict) -> u64
    requires { VerdictFits v }
    ensures { result ≡ packed_verdict v }
{
    match v {
        Verdict::Lawful => 0,
        Verdict::Unlawful(cell) => 1099511627776 * (cell.0 as u64 + 1),
        Verdict::Refused(k, n) => 4294967296 * (k as u64) + n as u64,
    }
}

// The judge's verdict on a record's bytes.
pub fn adze_verdict(bytes: &[u8]) -> u64
    ensures { Judged bytes.now result }
{
    let v = verdict::judge(bytes);
    packed_verdict(v)
}

// What was done on a rack as one number.
fn packed_run(a: layout::WordsAnswer) -> u64
    requires { RunFits a }
    ensures { result ≡ packed_run a }
{
    4294967296 * (a.refusal as u64) + a.done as u64
}

// Makes a fresh rack in lent words.
pub fn adze_rack_made(rack: &mut [u32], replicas: u32, clients: u32, cells: u32) -> u64
    ensures { (result ≡ packed_run (made_outcome replicas clients cells rack.old).answer) ×
        (rack.new ≡ (made_outcome replicas clients cells rack.old).lent) }
{
    let a = words::made(rack, replicas, clients, cells);
    packed_run(a)
}

// Runs a schedule on the rack of lent words. An allowance of 32 bits, so that the number of events done fits the answer.
pub fn adze_rack_run(rack: &mut [u32], allowance: u32, events: &[u32]) -> u64
    ensures { (result ≡ packed_run (run_outcome rack.old allowance events.now).answer) ×
        (rack.new ≡ (run_outcome rack.old allowance events.now).lent) }
{
    let a = words::run(rack, allowance as usize, events);
    packed_run(a)
}
