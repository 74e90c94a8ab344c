// The library for C and Rust that include/build-library makes: each export is the call of crate exports with its name, and states its clauses again.
#![tactic(auto)]

ghost use Rattle.std.specs.Prelude.{◌≡◌};
ghost use Rattle.number.specs.Number.{number_bytes, number_at, put_answer, put_bytes};
ghost use Rattle.number.specs.Value.{alternating_of, signed_of};
ghost use Rattle.rows.specs.Rows.{read_outcome, write_outcome};
ghost use Rattle.exports.specs.Packed.{packed_number, packed_put, packed_answer, Judged, packed_run};
ghost use Rattle.layout.specs.Calls.{made_outcome, run_outcome};

// The number at a place, with how many bytes it takes.
#[unsafe(no_mangle)]
pub extern "C" fn adze_read_number(bytes: &[u8], at: usize) -> u64
    ensures { result ≡ packed_number at (number_at bytes.now at) }
{
    exports::adze_read_number(bytes, at)
}

// Writes a number at a place.
#[unsafe(no_mangle)]
pub extern "C" fn adze_write_number(bytes: &mut [u8], at: usize, n: u32) -> u64
    ensures { (result ≡ packed_put at (put_answer bytes.old at (number_bytes n))) × (bytes.new ≡ put_bytes bytes.old at (number_bytes n)) }
{
    exports::adze_write_number(bytes, at, n)
}

// The number that a value is written as.
#[unsafe(no_mangle)]
pub extern "C" fn adze_alternating(v: i32) -> u32
    ensures { result ≡ alternating_of v }
{
    exports::adze_alternating(v)
}

// The value that a number stands for.
#[unsafe(no_mangle)]
pub extern "C" fn adze_signed(n: u32) -> i32
    ensures { result ≡ signed_of n }
{
    exports::adze_signed(n)
}

// Reads a record into lent rows.
#[unsafe(no_mangle)]
pub extern "C" fn adze_read_record(bytes: &[u8], rows: &mut [u32]) -> u64
    ensures { (result ≡ packed_answer (read_outcome bytes.now rows.old).answer) ×
        (rows.new ≡ (read_outcome bytes.now rows.old).lent) }
{
    exports::adze_read_record(bytes, rows)
}

// Writes the record of lent rows into lent bytes.
#[unsafe(no_mangle)]
pub extern "C" fn adze_write_record(rows: &[u32], bytes: &mut [u8]) -> u64
    ensures { (result ≡ packed_answer (write_outcome rows.now bytes.old).answer) ×
        (bytes.new ≡ (write_outcome rows.now bytes.old).lent) }
{
    exports::adze_write_record(rows, bytes)
}

// The judge's verdict on a record's bytes.
#[unsafe(no_mangle)]
pub extern "C" fn adze_verdict(bytes: &[u8]) -> u64
    ensures { Judged bytes.now result }
{
    exports::adze_verdict(bytes)
}

// Makes a fresh rack in lent words.
#[unsafe(no_mangle)]
pub extern "C" fn adze_rack_made(rack: &mut [u32], replicas: u32, clients: u32, cells: u32) -> u64
    ensures { (result ≡ packed_run (made_outcome replicas clients cells rack.old).answer) ×
        (rack.new ≡ (made_outcome replicas clients cells rack.old).lent) }
{
    exports::adze_rack_made(rack, replicas, clients, cells)
}

// Runs a schedule on the rack of lent words. An allowance of 32 bits, so that the number of events done fits the answer.
#[unsafe(no_mangle)]
pub extern "C" fn adze_rack_run(rack: &mut [u32], allowance: u32, events: &[u32]) -> u64
    ensures { (result ≡ packed_run (run_outcome rack.old allowance events.now).answer) ×
        (rack.new ≡ (run_outcome rack.old allowance events.now).lent) }
{
    exports::adze_rack_run(rack, allowance, events)
}
