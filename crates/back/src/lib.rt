// What a rack writes down reads back, and the judge takes it: theorems on the engine's record in specs/, and the call that writes it.
#![tactic(auto)]

ghost use Rattle.std.specs.Prelude.{◌≡◌, ◌*◌, ◌≤◌, length};
ghost use Rattle.std.proofs.lemmas.List.Edits.{sets};
ghost use Rattle.record.specs.Record.{entry_limit};
ghost use Rattle.rows.specs.Rows.{rows_of, write_outcome, Leaves};
ghost use Rattle.rack.specs.Places.{record_of};
ghost use Rattle.back.specs.laws.Lines.{entries_of};

use rack::Rack;
use record::{Answer, ENTRY_LIMIT};

// The rows of the first n lines.
fn store_lines(rack: &Rack, n: usize, rows: &mut [u32])
    requires { (n ≤ entry_limit) × (4 * n ≤ length rows.old) }
    ensures { rows.new ≡ sets rows.old 0 (rows_of (entries_of n rack.now.lines)) }
{
    for i in 0..n {
        rows::store_row(rows, 4 * i, rack.lines[i].entry);
    }
}

// Writes a rack's record into lent bytes. A rack that isn't sound may count more lines than there are.
pub fn write_record_of(rack: Rack, bytes: &mut [u8]) -> Answer
    ensures { Leaves (write_outcome (rows_of (record_of rack)) bytes.old) result bytes.new }
{
    let n = rack.count.min(ENTRY_LIMIT);
    let mut rows = [0u32; 4 * ENTRY_LIMIT];
    store_lines(&rack, n, &mut rows);
    writer::write_record(&rows[..4 * n], bytes)
}
