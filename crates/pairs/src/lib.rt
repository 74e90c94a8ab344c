// The judge's first pass: a record's entries are read, and each end is paired with its start.
#![tactic(auto)]

ghost use Rattle.std.specs.Prelude.{◌≡◌, ◌<◌, ◌≤◌};
ghost use Rattle.record.specs.Entry.{last_client};
ghost use Rattle.record.specs.Record.{entry_limit};
ghost use Rattle.record.specs.Legal.{InRange};
ghost use Rattle.pairs.specs.Pairs.{PairsUp};
ghost use Rattle.pairs.specs.laws.Noting.{Long, Low, start_row, end_row, note_row, Noted};

use chains::Entries;
use record::{Answer, Cell, Client, ENTRY_LIMIT, Entry, Standing};
use refusal::Refusal;

// Each column is as long as a record may be. It does nothing: a proof has the lengths from where an element is read.
fn lengths(entries: &Entries) -> u8
    ensures { Long entries.now.kinds entries.now.cells entries.now.values entries.now.starts }
{
    entries.kinds[0]
}

// What is kept of an entry; and its client, whose open operation starts at `start`.
#[derive(Clone, Copy)]
struct Row {
    client: Client,
    kind: u8,
    cell: Cell,
    value: u32,
    start: u16,
}

// Of entry n, which starts an operation.
fn start_row(n: usize, client: Client, kind: u8, cell: Cell, value: u32) -> Row
    requires { n < entry_limit }
    ensures { result ≡ start_row n client kind cell value }
{
    Row {
        client,
        kind,
        cell,
        value,
        start: n as u16,
    }
}

// Of an entry that ends the client's open operation: the cell is the one that was asked for.
fn end_row(
    entries: &Entries,
    opened: &[u16; Client::LIMIT],
    client: Client,
    kind: u8,
    value: u32,
) -> Row
    requires { (client.0 ≤ last_client) × Low opened.now }
    ensures { result ≡ end_row entries.now.cells opened.now client kind value }
{
    let start = opened[client.0 as usize];
    Row {
        client,
        kind,
        cell: Cell(entries.cells[start as usize]),
        value,
        start,
    }
}

// Of entry n, whatever its kind.
fn row_of(entries: &Entries, opened: &[u16; Client::LIMIT], n: usize, e: Entry) -> Row
    requires { (n < entry_limit) × InRange e × Low opened.now }
    ensures { result ≡ note_row entries.now.cells opened.now n e }
{
    match e {
        Entry::ReadAsked(client, cell) => start_row(n, client, 0, cell, 0),
        Entry::WriteAsked(client, cell, v) => start_row(n, client, 1, cell, number::alternating(v)),
        Entry::Told(client, v) => end_row(entries, opened, client, 2, number::alternating(v)),
        Entry::Done(client) => end_row(entries, opened, client, 3, 0),
    }
}

// Stores what is kept of entry n.
fn note_entry(entries: &mut Entries, opened: &mut [u16; Client::LIMIT], n: usize, e: Entry)
    requires { (n < entry_limit) × InRange e × Low opened.old }
    ensures { Noted entries.old.kinds entries.old.cells entries.old.values entries.old.starts opened.old n
        (note_row entries.old.cells opened.old n e)
        entries.new.kinds entries.new.cells entries.new.values entries.new.starts opened.new }
{
    let row = row_of(entries, opened, n, e);
    opened[row.client.0 as usize] = row.start;
    entries.kinds[n] = row.kind;
    entries.cells[n] = row.cell.0;
    entries.values[n] = row.value;
    entries.starts[n] = row.start;
}

// Reads a record and pairs its entries, or answers the first fault.
pub fn pair_up(s: &[u8], entries: &mut Entries) -> Answer
    ensures { PairsUp s.now result entries.new.kinds entries.new.cells entries.new.values entries.new.starts }
{
    lengths(entries);
    let mut st = Standing::fresh();
    let mut opened = [0u16; Client::LIMIT];
    let mut at = 0;
    for n in 0..ENTRY_LIMIT {
        if s.len() <= at {
            return Ok(n);
        }
        let (e, next) = match reader::entry_at(s, at) {
            Ok(found) => found,
            Err(k) => return Err((k, n)),
        };
        if let Some(k) = st.fault(e) {
            return Err((k, n));
        }
        note_entry(entries, &mut opened, n, e);
        st = st.after(e);
        at = next;
    }
    if at < s.len() {
        return Err((Refusal::TooMany, ENTRY_LIMIT));
    }
    Ok(ENTRY_LIMIT)
}
