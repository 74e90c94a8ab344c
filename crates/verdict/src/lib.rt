// The judge: bytes to a verdict. One pass reads and pairs the entries, one enters the writes into a table, one finds each cluster's least
// stop and greatest start, and one sweeps over the clusters by place.
#![tactic(auto)]

ghost use Rattle.std.specs.Prelude.{◌≡◌, ◌+◌, ◌<◌, ◌≤◌, min, max, length, get_or, set, cond, eqb, IfSome};
ghost use Rattle.record.specs.Record.{entry_limit};
ghost use Rattle.record.specs.Entry.{cell_limit};
ghost use Rattle.clusters.specs.laws.Arrays.{Fit, Ready, Taking, Tally, OwnNumbers, stop_of, mark_of, Scattering, Scattered, Sweepable, Visited, Swept, LowestIn, cell_or_limit};
ghost use Rattle.verdict.specs.Verdict.{taken_for, Judges};
ghost use Rattle.verdict.specs.laws.Judging.{Settles, JudgesIn};

use chains::{CHAINS, Entries, Table};
use record::{Cell, ENTRY_LIMIT};
use refusal::Refusal;

// How many places clusters have, among them the one beyond those of all entries; and the stop of what has none.
const PLACES: usize = 2 * ENTRY_LIMIT;

const BEYOND: u16 = ENTRY_LIMIT as u16;

const FAR: u16 = u16::MAX;

// How many cells there are at most.
const CELLS: u8 = Cell::LIMIT as u8;

// What the judge says of a record.
#[derive(Clone, Copy)]
pub enum Verdict {
    Lawful,
    Unlawful(Cell),
    Refused(u8, usize),
}

// What is gathered of each cluster, by its write's number: its least stop and its greatest start.
#[derive(Drop)]
struct Zones {
    least: [u16; ENTRY_LIMIT],
    most: [u16; ENTRY_LIMIT],
}

// What is gathered of each cell: how far it reaches, at first the last start of a read of zero, and its mark.
#[derive(Drop)]
struct Cells {
    reach: [u16; Cell::LIMIT],
    bad: [u8; Cell::LIMIT],
}

// A cell's mark: 1 once a cluster's least stop comes before the cell's reach.
#[tactic(auto, unfolding(clusters::specs::laws::Arrays::mark_of))]
fn mark_of(least: u16, reach: u16, mark: u8) -> u8
    ensures { result ≡ mark_of least reach mark }
{
    if least < reach { 1 } else { mark }
}

// The stop of a write that ends at p; far where the entry ends no write. A select, so that no branch depends on the kind.
#[tactic(auto, unfolding(clusters::specs::laws::Arrays::stop_of))]
fn stop_of(kind: u8, p: u16) -> u16
    ensures { result ≡ stop_of kind p }
{
    if kind == 3 { p } else { FAR }
}

// A write's place; beyond all places where the entry is no write. A select again.
fn place_of(kind: u8, place: u16) -> u16
    ensures { result ≡ cond (eqb kind 1) place entry_limit }
{
    if kind == 1 { place } else { BEYOND }
}

impl Zones {
    // Before any read a cluster's greatest start is its write's.
    fn own_numbers(&mut self, n: usize)
        requires { n ≤ entry_limit }
        ensures { OwnNumbers n self.new.most × (self.new.least ≡ self.old.least) }
    {
        for i in 0..n {
            self.most[i] = i as u16;
        }
    }

    // A write's end is an end of its own cluster; no other entry lowers anything here.
    fn take_done(&mut self, entries: &Entries, p: usize)
        requires { (p < entry_limit) × (get_or entries.now.starts p 0 < entry_limit) }
        ensures { (self.new.least ≡ set self.old.least (get_or entries.now.starts p 0)
            (min (get_or self.old.least (get_or entries.now.starts p 0) 0) (stop_of (get_or entries.now.kinds p 0) p))) ×
            (self.new.most ≡ self.old.most) }
    {
        let w = entries.starts[p] as usize;
        self.least[w] = self.least[w].min(stop_of(entries.kinds[p], p as u16));
    }

    // A read's end and start into the cluster of the write w.
    fn join(&mut self, entries: &Entries, p: usize, w: usize)
        requires { (p < entry_limit) × (w < entry_limit) }
        ensures { (self.new.least ≡ set self.old.least w (min (get_or self.old.least w 0) p)) ×
            (self.new.most ≡ set self.old.most w (max (get_or self.old.most w 0) (get_or entries.now.starts p 0))) }
    {
        let stop = self.least[w].min(p as u16);
        let start = self.most[w].max(entries.starts[p]);
        self.least[w] = stop;
        self.most[w] = start;
    }
}

impl Cells {
    // A read of zero: nothing may end before the last of them begins.
    fn take_zero(&mut self, entries: &Entries, p: usize)
        requires { (p < entry_limit) × (get_or entries.now.cells p 0 < cell_limit) }
        ensures { (self.new.reach ≡ set self.old.reach (get_or entries.now.cells p 0)
            (max (get_or self.old.reach (get_or entries.now.cells p 0) 0) (get_or entries.now.starts p 0))) ×
            (self.new.bad ≡ self.old.bad) }
    {
        let c = entries.cells[p] as usize;
        self.reach[c] = self.reach[c].max(entries.starts[p]);
    }

    // The cell of entry p has a read that gives what no write before its end asked.
    fn mark(&mut self, entries: &Entries, p: usize)
        requires { (p < entry_limit) × (get_or entries.now.cells p 0 < cell_limit) }
        ensures { (self.new.bad ≡ set self.old.bad (get_or entries.now.cells p 0) 1) × (self.new.reach ≡ self.old.reach) }
    {
        self.bad[entries.cells[p] as usize] = 1;
    }

    // The cluster of the write w, which stands at place p: it marks its cell if it ends before the cell's reach, and carries the reach on.
    fn meet(&mut self, entries: &Entries, zones: &Zones, w: usize)
        requires { (w < entry_limit) × (get_or entries.now.cells w 0 < cell_limit) }
        ensures { (self.new.reach ≡ set self.old.reach (get_or entries.now.cells w 0)
            (max (get_or self.old.reach (get_or entries.now.cells w 0) 0) (get_or zones.now.most w 0))) ×
            (self.new.bad ≡ set self.old.bad (get_or entries.now.cells w 0)
            (mark_of (get_or zones.now.least w 0) (get_or self.old.reach (get_or entries.now.cells w 0) 0)
            (get_or self.old.bad (get_or entries.now.cells w 0) 0))) }
    {
        let c = entries.cells[w] as usize;
        let reach = self.reach[c];
        self.bad[c] = mark_of(zones.least[w], reach, self.bad[c]);
        self.reach[c] = reach.max(zones.most[w]);
    }

    // The lowest marked cell.
    fn lowest(&self) -> Option<Cell>
        ensures { LowestIn self.now.bad (cell_or_limit result) × IfSome result (λ c. c.0 < cell_limit) }
    {
        for c in 0..CELLS {
            if self.bad[c as usize] != 0 {
                return Some(Cell(c));
            }
        }
        None
    }
}

// A read's end: a read of zero, or one of its write's cluster.
fn take_read(
    entries: &Entries,
    n: usize,
    table: &Table,
    zones: &mut Zones,
    cells: &mut Cells,
    p: usize,
)
    requires { (get_or entries.now.kinds p 0 ≡ 2) ×
        Taking entries.now n p table.now.head table.now.next zones.old.least zones.old.most cells.old.reach cells.old.bad }
    ensures { Tally entries.now n (p + 1) zones.new.least zones.new.most cells.new.reach cells.new.bad }
{
    let value = entries.values[p];
    if value == 0 {
        cells.take_zero(entries, p);
        return;
    }
    match table.find(entries, n, Cell(entries.cells[p]), value) {
        None => cells.mark(entries, p),
        Some(w) => {
            zones.join(entries, p, w);
            if p < w {
                cells.mark(entries, p);
            }
        }
    }
}

// Entry p: only ends are taken. An unfinished read is in no cluster, and an unfinished write has no end.
fn take_entry(
    entries: &Entries,
    n: usize,
    table: &Table,
    zones: &mut Zones,
    cells: &mut Cells,
    p: usize,
)
    requires { Taking entries.now n p table.now.head table.now.next zones.old.least zones.old.most cells.old.reach cells.old.bad }
    ensures { Tally entries.now n (p + 1) zones.new.least zones.new.most cells.new.reach cells.new.bad }
{
    zones.take_done(entries, p);
    if entries.kinds[p] == 2 {
        take_read(entries, n, table, zones, cells, p);
    }
}

// Every end into its cluster.
fn take_ends(entries: &Entries, n: usize, table: &Table, zones: &mut Zones, cells: &mut Cells)
    requires { Ready entries.now n table.now.head table.now.next ×
        Tally entries.now n 0 zones.old.least zones.old.most cells.old.reach cells.old.bad }
    ensures { Tally entries.now n n zones.new.least zones.new.most cells.new.reach cells.new.bad }
{
    for p in 0..n {
        take_entry(entries, n, table, zones, cells, p);
    }
}

// A write's cluster to its place.
fn place(entries: &Entries, n: usize, zones: &Zones, at: &mut [u16; PLACES], p: usize)
    requires { (p < n) × Scattering entries.now n zones.now.least zones.now.most ×
        Scattered entries.now n zones.now.least zones.now.most p at.old }
    ensures { Scattered entries.now n zones.now.least zones.now.most (p + 1) at.new }
{
    let i = place_of(entries.kinds[p], zones.least[p].min(zones.most[p]));
    at[i as usize] = p as u16;
}

// Every cluster to its place: the first of its least stop and greatest start. No two share one.
fn scatter(entries: &Entries, n: usize, zones: &Zones, at: &mut [u16; PLACES])
    requires { Scattering entries.now n zones.now.least zones.now.most ×
        Scattered entries.now n zones.now.least zones.now.most 0 at.old }
    ensures { Scattered entries.now n zones.now.least zones.now.most n at.new }
{
    for p in 0..n {
        place(entries, n, zones, at, p);
    }
}

// One place of the sweep. The kinds, values and starts say which clusters are meant, and are not read.
fn visit(
    entries: &Entries,
    n: usize,
    zones: &Zones,
    at: &[u16; PLACES],
    cells: &mut Cells,
    p: usize,
)
    requires { (p < n) × Sweepable entries.now n zones.now.least zones.now.most at.now }
    ensures { Visited entries.now n zones.now.least zones.now.most p cells.old.reach cells.old.bad cells.new.reach cells.new.bad }
{
    let w = at[p] as usize;
    if w < n {
        cells.meet(entries, zones, w);
    }
}

// All places in order.
fn sweep(entries: &Entries, n: usize, zones: &Zones, at: &[u16; PLACES], cells: &mut Cells)
    requires { Sweepable entries.now n zones.now.least zones.now.most at.now × (length cells.old.reach ≡ cell_limit) × (length cells.old.bad ≡ cell_limit) }
    ensures { Swept entries.now n zones.now.least zones.now.most cells.old.reach cells.old.bad cells.new.bad }
{
    for p in 0..n {
        visit(entries, n, zones, at, cells, p);
    }
}

// The clusters in the order of their places, and what the sweep over them marks.
fn order(entries: &Entries, n: usize, zones: &Zones, cells: &mut Cells)
    requires { Scattering entries.now n zones.now.least zones.now.most × (length cells.old.reach ≡ cell_limit) × (length cells.old.bad ≡ cell_limit) }
    ensures { Swept entries.now n zones.now.least zones.now.most cells.old.reach cells.old.bad cells.new.bad }
{
    let mut at = [FAR; PLACES];
    scatter(entries, n, zones, &mut at);
    sweep(entries, n, zones, &at, cells);
}

// The lowest cell whose operations have no lawful order.
fn settle(entries: &Entries, n: usize, table: &Table) -> Option<Cell>
    requires { Ready entries.now n table.now.head table.now.next }
    ensures { Settles entries.now n (cell_or_limit result) × IfSome result (λ c. c.0 < cell_limit) }
{
    let mut zones = Zones {
        least: [FAR; ENTRY_LIMIT],
        most: [0; ENTRY_LIMIT],
    };
    let mut cells = Cells {
        reach: [0; Cell::LIMIT],
        bad: [0; Cell::LIMIT],
    };
    zones.own_numbers(n);
    take_ends(entries, n, table, &mut zones, &mut cells);
    order(entries, n, &zones, &mut cells);
    cells.lowest()
}

// The verdict on paired entries: 29, or whether the cells are lawful.
fn judge_paired(entries: &Entries, n: usize) -> Verdict
    requires { Fit entries.now n }
    ensures { JudgesIn entries.now n result }
{
    let mut table = Table {
        head: [0; CHAINS],
        next: [0; ENTRY_LIMIT],
    };
    if let Some(p) = table.link(entries, n) {
        return Verdict::Refused(Refusal::AskedAgain.number(), p);
    }
    match settle(entries, n, &table) {
        Some(c) => Verdict::Unlawful(c),
        None => Verdict::Lawful,
    }
}

// The verdict on a record's bytes: the first refusal with its entry's number, or whether every cell's part has a lawful order, and if not
// the lowest cell whose part has none.
pub fn judge(s: &[u8]) -> Verdict
    ensures { Judges (taken_for s.now) result }
{
    let mut entries = Entries {
        kinds: [0; ENTRY_LIMIT],
        cells: [0; ENTRY_LIMIT],
        values: [0; ENTRY_LIMIT],
        starts: [0; ENTRY_LIMIT],
    };
    match pairs::pair_up(s, &mut entries) {
        Ok(n) => judge_paired(&entries, n),
        Err((k, n)) => Verdict::Refused(k.number(), n),
    }
}
