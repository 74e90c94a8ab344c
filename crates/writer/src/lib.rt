// The writer: an entry's bytes, and those of the record that rows in lent memory hold.
#![tactic(auto)]

ghost use Rattle.std.specs.Prelude.{ℕ, ◌≡◌, ◌+◌, ◌≤◌, length};
ghost use Rattle.std.specs.Result.{result_map_both};
ghost use Rattle.number.specs.Number.{number_bytes, Placed};
ghost use Rattle.record.specs.Entry.{entry_bytes};
ghost use Rattle.rows.specs.Row.{row_found, row_at};
ghost use Rattle.rows.specs.Rows.{rows_held, write_outcome, Leaves};
ghost use Rattle.rows.specs.laws.Storing.{measure_of, Writable};
ghost use Rattle.number.specs.Wrote.{Wrote};

use number::number_length;
use record::{Answer, Cell, Client, ENTRY_LIMIT, Entry, Standing};
use refusal::Refusal;
use rows::row_of;

// The entry that four numbers of a row are, without a place beside it. A field that the kind hasn't got isn't looked at.
fn row_found(kind: u32, client: u32, cell: u32, value: u32) -> Result<Entry, Refusal>
    ensures { (next : ℕ) → row_found kind client cell value next ≡ result_map_both (λ e. (e, next)) (λ k. k) result }
{
    if 3 < kind {
        return Err(Refusal::KindAbove);
    }
    if Client::LAST < client {
        return Err(Refusal::FieldAbove);
    }
    let client = Client(client as u8);
    if kind == 3 {
        return Ok(Entry::Done(client));
    }
    if kind == 2 {
        return Ok(Entry::Told(client, number::signed(value)));
    }
    if Cell::LAST < cell {
        return Err(Refusal::FieldAbove);
    }
    let cell = Cell(cell as u8);
    if kind == 0 {
        return Ok(Entry::ReadAsked(client, cell));
    }
    Ok(Entry::WriteAsked(client, cell, number::signed(value)))
}

// The entry of the row at a place of the lent rows: the next is four numbers on.
#[tactic(auto, unfolding(rows::specs::Row::row_at))]
fn row_at(rows: &[u32], at: usize) -> Result<Entry, Refusal>
    requires { at + 4 ≤ length rows.now }
    ensures { row_at rows.now at ≡ result_map_both (λ e. (e, at + 4)) (λ k. k) result }
{
    row_found(rows[at], rows[at + 1], rows[at + 2], rows[at + 3])
}

// How many bytes an entry takes: those of its row's numbers, without the fields that its kind hasn't got.
fn entry_length(e: Entry) -> usize
    ensures { result ≡ length (entry_bytes e) }
{
    let row = row_of(e);
    let kind = row[0];
    let two = number_length(kind) + number_length(row[1]);
    if kind == 3 {
        return two;
    }
    if kind == 2 {
        return two + number_length(row[3]);
    }
    let three = two + number_length(row[2]);
    if kind == 0 {
        return three;
    }
    three + number_length(row[3])
}

// How many bytes the rows take as a record, or the first fault.
fn measure(rows: &[u32]) -> Answer
    ensures { result ≡ measure_of (rows_held rows.now) }
{
    let mut st = Standing::fresh();
    let mut sum: usize = 0;
    for n in 0..rows.len() / 4 {
        if n == ENTRY_LIMIT {
            return Err((Refusal::TooMany, n));
        }
        let e = match row_at(rows, 4 * n) {
            Ok(e) => e,
            Err(refusal) => return Err((refusal, n)),
        };
        if let Some(refusal) = st.fault(e) {
            return Err((refusal, n));
        }
        st = st.after(e);
        sum += entry_length(e);
    }
    Ok(sum)
}

// One number that fits.
fn put_number(bytes: &mut [u8], at: usize, n: u32) -> usize
    requires { at + length (number_bytes n) ≤ length bytes.old }
    ensures { Wrote bytes.old at (number_bytes n) result bytes.new }
{
    number::write_number(bytes, at, n).unwrap()
}

// An entry that fits: its row's numbers in order, without the fields that its kind hasn't got.
fn put_entry(bytes: &mut [u8], at: usize, e: Entry) -> usize
    requires { at + length (entry_bytes e) ≤ length bytes.old }
    ensures { Wrote bytes.old at (entry_bytes e) result bytes.new }
{
    let row = row_of(e);
    let kind = row[0];
    let a = put_number(bytes, at, kind);
    let b = put_number(bytes, a, row[1]);
    if kind == 3 {
        return b;
    }
    if kind == 2 {
        return put_number(bytes, b, row[3]);
    }
    let c = put_number(bytes, b, row[2]);
    if kind == 0 {
        return c;
    }
    put_number(bytes, c, row[3])
}

// Writes an entry at `at`: the place after it, or nothing where it doesn't fit from there on.
pub fn write_entry(bytes: &mut [u8], at: usize, e: Entry) -> Option<usize>
    ensures { Placed bytes.old at (entry_bytes e) result bytes.new }
{
    let room = bytes.len().checked_sub(at)?;
    if room < entry_length(e) {
        return None;
    }
    Some(put_entry(bytes, at, e))
}

// Writes the entries that the rows hold.
fn put_rows(rows: &[u32], bytes: &mut [u8])
    requires { Writable (rows_held rows.now) bytes.old }
    ensures { bytes.new ≡ (write_outcome rows.now bytes.old).lent }
{
    let mut out = 0;
    for n in 0..rows.len() / 4 {
        let e = row_at(rows, 4 * n).unwrap();
        out = put_entry(bytes, out, e);
    }
}

// Writes the record that the rows hold into lent bytes. Two passes, so that a refusal writes nothing.
pub fn write_record(rows: &[u32], bytes: &mut [u8]) -> Answer
    ensures { Leaves (write_outcome rows.now bytes.old) result bytes.new }
{
    let n = measure(rows)?;
    if bytes.len() < n {
        return Err((Refusal::TooShort, 0));
    }
    put_rows(rows, bytes);
    Ok(n)
}
