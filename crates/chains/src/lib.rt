// The judge's table of writes: from a cell and a value to the entry that asks to write it.
#![tactic(auto)]

ghost use Rattle.std.specs.Prelude.{◌≡◌, ◌+◌, ◌≤◌, ◌<◌, get_or};
ghost use Rattle.record.specs.Record.{entry_limit};
ghost use Rattle.chains.specs.Chains.{Again};
ghost use Rattle.chains.specs.Table.{chain_count, home_of, Chained, Empty, Found, Linking};
ghost use Rattle.chains.specs.laws.Entering.{Decides, Entered};

use record::{Cell, ENTRY_LIMIT};

// How many chains the table has: twice as many as a record has entries.
pub const CHAINS: usize = 2 * ENTRY_LIMIT;

// What is kept of a record's entries, a column for each field: kind, cell, value as the number it is written as, and start.
#[derive(Drop)]
pub struct Entries {
    pub kinds: [u8; ENTRY_LIMIT],
    pub cells: [u8; ENTRY_LIMIT],
    pub values: [u32; ENTRY_LIMIT],
    pub starts: [u16; ENTRY_LIMIT],
}

// The table: each chain's head is a link to its last write, and each write's next to the one before it in its chain. A link is one more
// than an entry's number, and 0 where there is none.
#[derive(Drop)]
pub struct Table {
    pub head: [u16; CHAINS],
    pub next: [u16; ENTRY_LIMIT],
}

// The chain of a cell and a value: the middle of a product, so that near values lie far apart.
#[tactic(auto, unfolding(crate::specs::Table::home_of))]
fn home(cell: Cell, value: u32) -> usize
    ensures { (result ≡ home_of cell.0 value) × (result < chain_count) }
{
    let x = value as u64 + cell.0 as u64 * 65537;
    (x * 1327217885 / 1048576) as usize % CHAINS
}

impl Entries {
    // Whether entry w has this cell and value.
    fn suits(&self, w: usize, cell: Cell, value: u32) -> bool
        requires { w < entry_limit }
        ensures { Decides ((get_or self.now.cells w 0 ≡ cell.0) × (get_or self.now.values w 0 ≡ value)) result }
    {
        self.values[w] == value && self.cells[w] == cell.0
    }
}

impl Table {
    // The write of a cell and a value, down their chain. The kinds and n only say which entries the table holds, and are not read.
    pub fn find(&self, entries: &Entries, n: usize, cell: Cell, value: u32) -> Option<usize>
        requires { Chained entries.now.kinds entries.now.cells entries.now.values n self.now.head self.now.next }
        ensures { Found entries.now.kinds entries.now.cells entries.now.values n cell.0 value result }
    {
        let mut link = self.head[home(cell, value)] as usize;
        while 0 < link {
            let w = link - 1;
            if entries.suits(w, cell, value) {
                return Some(w);
            }
            link = self.next[w] as usize;
        }
        None
    }

    // Whether the write p asks again: what is entered already is all that comes before it.
    fn asks_again(&self, entries: &Entries, p: usize) -> bool
        requires { (p < entry_limit) × (get_or entries.now.kinds p 0 ≡ 1) ×
            Chained entries.now.kinds entries.now.cells entries.now.values p self.now.head self.now.next }
        ensures { Decides (Again entries.now.kinds entries.now.cells entries.now.values p) result }
    {
        let cell = Cell(entries.cells[p]);
        let value = entries.values[p];
        value == 0 || self.find(entries, p, cell, value).is_some()
    }

    // Entry p into the table, in front of its chain, if it asks to write. False if it asks again.
    fn enter(&mut self, entries: &Entries, p: usize) -> bool
        requires { (p < entry_limit) × Chained entries.now.kinds entries.now.cells entries.now.values p self.old.head self.old.next }
        ensures { Entered entries.now.kinds entries.now.cells entries.now.values p self.old.head self.old.next self.new.head self.new.next result }
    {
        if entries.kinds[p] != 1 {
            return true;
        }
        if self.asks_again(entries, p) {
            return false;
        }
        let h = home(Cell(entries.cells[p]), entries.values[p]);
        self.next[p] = self.head[h];
        self.head[h] = (p + 1) as u16;
        true
    }

    // Every write of the record into the empty table, or the first that asks again.
    pub fn link(&mut self, entries: &Entries, n: usize) -> Option<usize>
        requires { (n ≤ entry_limit) × Empty self.old.head self.old.next }
        ensures { Linking entries.now.kinds entries.now.cells entries.now.values n self.old.next self.new.head self.new.next result }
    {
        for p in 0..n {
            if !self.enter(entries, p) {
                return Some(p);
            }
        }
        None
    }
}
