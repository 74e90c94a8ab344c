// A record in memory that is lent: rows of four numbers, and reading bytes into them.
#![tactic(auto)]

ghost use Rattle.std.specs.Prelude.{◌≡◌, ◌+◌, ◌≤◌, length};
ghost use Rattle.std.proofs.lemmas.List.Edits.{sets};
ghost use Rattle.record.specs.Record.{bytes_held};
ghost use Rattle.rows.specs.Row.{row_of, room_at, stored_at};
ghost use Rattle.rows.specs.Rows.{read_outcome, Leaves};
ghost use Rattle.rows.specs.laws.Storing.{Storable};

use record::{Answer, Entry};
use refusal::Refusal;

// Four numbers at a place.
fn put_row(rows: &mut [u32], at: usize, row: [u32; 4])
    requires { at + 4 ≤ length rows.old }
    ensures { rows.new ≡ sets rows.old at row }
{
    rows[at..at + 4].copy_from_slice(&row);
}

// An entry as a row of four numbers; a field that its kind hasn't got stands as 0.
#[tactic(auto, unfolding(crate::specs::Row::row_of), using(number::specs::laws::ValueLaws::alternating_of_bits))]
pub fn row_of(e: Entry) -> [u32; 4]
    ensures { result ≡ row_of e }
{
    match e {
        Entry::ReadAsked(client, cell) => [0, u32::from(client.0), u32::from(cell.0), 0],
        Entry::WriteAsked(client, cell, v) => [
            1,
            u32::from(client.0),
            u32::from(cell.0),
            number::alternating(v),
        ],
        Entry::Told(client, v) => [2, u32::from(client.0), 0, number::alternating(v)],
        Entry::Done(client) => [3, u32::from(client.0), 0, 0],
    }
}

// An entry's row at a place of lent rows, where it has room; the answer is whether it has.
pub fn store_row(rows: &mut [u32], at: usize, e: Entry) -> bool
    ensures { (result ≡ room_at rows.old at) × (rows.new ≡ stored_at rows.old at e) }
{
    if rows.len() < 4 {
        return false;
    }
    if rows.len() - 4 < at {
        return false;
    }
    put_row(rows, at, row_of(e));
    true
}

// Stores the n entries that the bytes hold.
fn store_rows(s: &[u8], n: usize, rows: &mut [u32])
    requires { Storable (bytes_held s.now) n rows.old }
    ensures { rows.new ≡ (read_outcome s.now rows.old).lent }
{
    let mut at = 0;
    for i in 0..n {
        let (e, next) = reader::entry_at(s, at).unwrap();
        store_row(rows, 4 * i, e);
        at = next;
    }
}

// Reads a record into lent rows. Two passes, so that a refusal leaves them untouched.
pub fn read_record(s: &[u8], rows: &mut [u32]) -> Answer
    ensures { Leaves (read_outcome s.now rows.old) result rows.new }
{
    let n = reader::survey(s)?;
    if rows.len() / 4 < n {
        return Err((Refusal::TooShort, 0));
    }
    store_rows(s, n, rows);
    Ok(n)
}
