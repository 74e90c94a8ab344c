// The lines that say what a run did and left, for people and for comparison.
#![tactic(auto, using(text::specs::laws::Paging::page_steps, crate::proofs::Laws::each_none, crate::proofs::Laws::each_next))]

ghost use Rattle.std.specs.Prelude.{◌≡◌};
ghost use Rattle.text.specs.Text.{Printed};
ghost use Rattle.text.specs.Pages.{with_text};
ghost use Rattle.record.specs.Entry.{entry_bytes};
ghost use Rattle.record.specs.Record.{bytes_of};
ghost use Rattle.quorum.specs.Sets.{has_replica};
ghost use Rattle.rack.specs.Places.{slot_limit, party_at, pair_at, held_at, record_of};
ghost use Rattle.lines.specs.Lines.{each_below, pair_text, kind_text, body_pair, message_text, slot_line, goal_text, members_text, open_text, phase_word, phase_held};
ghost use Rattle.lines.specs.Lines.{work_text, client_line, power_text, pairs_text, replica_line, sizes_line, record_line, rack_text, refused_line, ran_text, fault_line};
ghost use Rattle.show.specs.laws.Forms.{in_form};

use method::{Body, Goal, Message, Operation, Party, Phase};
use quorum::Set;
use rack::{Rack, Ran, Settings};
use record::{Cell, Client, Entry, Replica};
use stamps::{Pair, fresh_pair};
use text::Page;
use writer::write_entry;

// ---- a slot's line

// number.rank=value
fn put_pair(page: &mut Page, pair: Pair)
    ensures { page.new ≡ with_text page.old (pair_text pair) }
{
    page.decimal(pair.stamp.number as usize);
    page.field(b".", pair.stamp.rank as usize);
    page.words(b"=");
    page.value(pair.value);
}

fn put_kind(page: &mut Page, body: Body)
    ensures { page.new ≡ with_text page.old (kind_text body) }
{
    match body {
        Body::Ask => page.words(b" ask"),
        Body::Tell(_) => page.words(b" tell"),
        Body::Keep(_) => page.words(b" keep"),
        Body::Kept => page.words(b" kept"),
    }
}

// A message's pair, after its word.
fn put_body_pair(page: &mut Page, body: Body)
    ensures { page.new ≡ with_text page.old (body_pair body) }
{
    if let Body::Tell(pair) | Body::Keep(pair) = body {
        page.words(b" pair ");
        put_pair(page, pair);
    }
}

// What the message is, whom and what it names, and its pair.
fn put_message(page: &mut Page, m: Message)
    ensures { page.new ≡ with_text page.old (message_text m) }
{
    put_kind(page, m.body);
    page.field(b" client ", m.client.0 as usize);
    page.field(b" replica ", m.replica.0 as usize);
    page.field(b" cell ", m.cell.0 as usize);
    page.field(b" op ", m.op as usize);
    put_body_pair(page, m.body);
}

// Only a full slot has a line.
fn put_slot(page: &mut Page, i: usize, held: Option<Message>)
    ensures { page.new ≡ with_text page.old (slot_line i held) }
{
    if let Some(m) = held {
        page.field(b"slot ", i);
        put_message(page, m);
        page.words(b"\n");
    }
}

fn put_wire(page: &mut Page, rack: &Rack)
    ensures { page.new ≡ with_text page.old (each_below slot_limit (λ i. slot_line i (held_at rack.now i))) }
{
    for (i, slot) in rack.wire.iter().enumerate() {
        put_slot(page, i, slot.held);
    }
}

// ---- a client's line

fn put_goal(page: &mut Page, goal: Goal)
    ensures { page.new ≡ with_text page.old (goal_text goal) }
{
    match goal {
        Goal::Read => page.words(b" read"),
        Goal::Write(v) => {
            page.words(b" write ");
            page.value(v);
        }
    }
}

// Each replica of a set, or that there is none.
fn put_members(page: &mut Page, set: Set)
    ensures { page.new ≡ with_text page.old (members_text set) }
{
    if set == 0 {
        return page.words(b" none");
    }
    for k in 0..quorum::SET_BITS {
        if quorum::has(set, Replica(k)) {
            page.field(b" ", k as usize);
        }
    }
}

// What an open operation is for, and who has answered.
fn put_open(page: &mut Page, op: u16, operation: Operation)
    ensures { page.new ≡ with_text page.old (open_text op operation.cell.0 operation.goal operation.set) }
{
    put_goal(page, operation.goal);
    page.field(b" cell ", operation.cell.0 as usize);
    page.field(b" op ", op as usize);
    page.words(b" from");
    put_members(page, operation.set);
}

fn put_phase_word(page: &mut Page, phase: Phase)
    ensures { page.new ≡ with_text page.old (phase_word phase) }
{
    match phase {
        Phase::Asking(_) => page.words(b" asking"),
        Phase::Keeping(_) => page.words(b" keeping"),
    }
}

// In the ask phase nothing is held while nobody has told, and then a pair.
fn put_phase_held(page: &mut Page, phase: Phase)
    ensures { page.new ≡ with_text page.old (phase_held phase) }
{
    match phase {
        Phase::Asking(None) => page.words(b" held none"),
        Phase::Asking(Some(pair)) | Phase::Keeping(pair) => {
            page.words(b" held ");
            put_pair(page, pair);
        }
    }
}

fn put_work(page: &mut Page, op: u16, work: Option<Operation>)
    ensures { page.new ≡ with_text page.old (work_text op work) }
{
    match work {
        None => page.field(b" idle op ", op as usize),
        Some(operation) => {
            put_phase_word(page, operation.phase);
            put_open(page, op, operation);
            put_phase_held(page, operation.phase);
        }
    }
}

fn put_client(page: &mut Page, client: Client, party: Party)
    ensures { page.new ≡ with_text page.old (client_line client.0 party) }
{
    page.field(b"client ", client.0 as usize);
    if party.stopped {
        page.words(b" stopped");
    }
    put_work(page, party.op, party.work);
    page.words(b"\n");
}

// Client i; one that has done nothing where there is no such place.
fn party_at(rack: &Rack, i: usize) -> Party
    ensures { result ≡ party_at rack.now i }
{
    rack.parties.get(i).copied().unwrap_or(Party {
        stopped: false,
        op: 0,
        work: None,
    })
}

fn put_clients(page: &mut Page, rack: &Rack)
    ensures { page.new ≡ with_text page.old (each_below rack.now.settings.clients (λ i. client_line i (party_at rack.now i))) }
{
    for i in 0..rack.settings.clients {
        put_client(page, Client(i), party_at(rack, i as usize));
    }
}

// ---- a replica's line

// A replica's pair for one cell; the fresh one where there is no such place.
fn pair_at(rack: &Rack, k: Replica, x: Cell) -> Pair
    ensures { result ≡ pair_at rack.now k.0 x.0 }
{
    let place = Cell::LIMIT * k.0 as usize + x.0 as usize;
    rack.pairs.get(place).copied().unwrap_or(fresh_pair())
}

fn put_pairs(page: &mut Page, rack: &Rack, k: Replica)
    ensures { page.new ≡ with_text page.old (pairs_text rack.now k.0) }
{
    for x in 0..rack.settings.cells {
        page.words(b" ");
        put_pair(page, pair_at(rack, k, Cell(x)));
    }
}

fn put_power(page: &mut Page, power: Set, k: Replica)
    ensures { page.new ≡ with_text page.old (power_text (has_replica power k.0)) }
{
    if quorum::has(power, k) {
        page.words(b" on");
    } else {
        page.words(b" off");
    }
}

fn put_replica(page: &mut Page, rack: &Rack, k: Replica)
    ensures { page.new ≡ with_text page.old (replica_line rack.now k.0) }
{
    page.field(b"replica ", k.0 as usize);
    put_power(page, rack.power, k);
    put_pairs(page, rack, k);
    page.words(b"\n");
}

fn put_replicas(page: &mut Page, rack: &Rack)
    ensures { page.new ≡ with_text page.old (each_below rack.now.settings.replicas (λ k. replica_line rack.now k)) }
{
    for k in 0..rack.settings.replicas {
        put_replica(page, rack, Replica(k));
    }
}

// ---- the record

// The most bytes that an entry has: four numbers of five.
const ENTRY_BYTES: usize = 20;

// How the record's bytes are written: in hex, or as they are.
#[derive(Clone, Copy)]
enum Form {
    Hex,
    Plain,
}

fn put_bytes(page: &mut Page, form: Form, bytes: &[u8])
    ensures { page.new ≡ with_text page.old (in_form form bytes.now) }
{
    match form {
        Form::Hex => page.hex(bytes),
        Form::Plain => page.words(bytes),
    }
}

fn put_entry(page: &mut Page, form: Form, e: Entry)
    ensures { page.new ≡ with_text page.old (in_form form (entry_bytes e)) }
{
    let mut bytes = [0u8; ENTRY_BYTES];
    if let Some(next) = write_entry(&mut bytes, 0, e) {
        put_bytes(page, form, &bytes[..next]);
    }
}

// The record's bytes: those of the entries that stand in its places.
fn put_entries(page: &mut Page, form: Form, rack: &Rack)
    ensures { page.new ≡ with_text page.old (in_form form (bytes_of (record_of rack.now))) }
{
    for line in rack.lines.iter().take(rack.count) {
        put_entry(page, form, line.entry);
    }
}

fn put_record(page: &mut Page, rack: &Rack)
    ensures { page.new ≡ with_text page.old (record_line rack.now) }
{
    page.words(b"record");
    put_entries(page, Form::Hex, rack);
    page.words(b"\n");
}

// The bytes of a rack's record as they are, from a place on as far as the lent bytes go; the place after them.
#[tactic(auto, unfolding(text::specs::Pages::with_text))]
pub fn put_record_bytes(out: &mut [u8], at: usize, rack: Rack) -> usize
    ensures { Printed out.old at (bytes_of (record_of rack)) result out.new }
{
    let mut page = Page {
        bytes: out,
        place: at,
    };
    put_entries(&mut page, Form::Plain, &rack);
    page.place
}

// ---- the rack, and a run

fn put_sizes(page: &mut Page, settings: Settings)
    ensures { page.new ≡ with_text page.old (sizes_line settings) }
{
    page.field(b"rack ", settings.replicas as usize);
    page.field(b" ", settings.clients as usize);
    page.field(b" ", settings.cells as usize);
    page.words(b"\n");
}

fn put_rack(page: &mut Page, rack: &Rack)
    ensures { page.new ≡ with_text page.old (rack_text rack.now) }
{
    put_sizes(page, rack.settings);
    put_replicas(page, rack);
    put_clients(page, rack);
    put_wire(page, rack);
    put_record(page, rack);
}

fn put_refused_line(page: &mut Page, refusal: u8)
    ensures { page.new ≡ with_text page.old (refused_line refusal) }
{
    page.words(b"refused ");
    if refusal == 0 {
        page.words(b"none");
    } else {
        page.decimal(refusal as usize);
    }
    page.words(b"\n");
}

// The line of a run's refusal.
#[tactic(auto, unfolding(text::specs::Pages::with_text))]
pub fn put_refused(out: &mut [u8], at: usize, refusal: u8) -> usize
    ensures { Printed out.old at (refused_line refusal) result out.new }
{
    let mut page = Page {
        bytes: out,
        place: at,
    };
    put_refused_line(&mut page, refusal);
    page.place
}

// How many events were done, the refusal, and the rack.
#[tactic(auto, using(text::specs::laws::Paging::page_steps), unfolding(lines::specs::Lines::ran_text))]
fn put_run(page: &mut Page, ran: &Ran)
    ensures { page.new ≡ with_text page.old (ran_text ran.now) }
{
    page.field(b"done ", ran.done);
    page.words(b"\n");
    put_refused_line(page, ran.refusal);
    put_rack(page, &ran.rack);
}

// The lines of a run, from a place on as far as the lent bytes go; the place after them.
#[tactic(auto, unfolding(text::specs::Pages::with_text))]
pub fn put_ran(out: &mut [u8], at: usize, ran: Ran) -> usize
    ensures { Printed out.old at (ran_text ran) result out.new }
{
    let mut page = Page {
        bytes: out,
        place: at,
    };
    put_run(&mut page, &ran);
    page.place
}

#[tactic(auto, using(text::specs::laws::Paging::page_steps), unfolding(lines::specs::Lines::fault_line))]
fn put_fault_line(page: &mut Page, refusal: u8, byte: usize)
    ensures { page.new ≡ with_text page.old (fault_line refusal byte) }
{
    page.field(b"refused ", refusal as usize);
    page.field(b" at byte ", byte);
    page.words(b"\n");
}

// The line of a script's fault.
#[tactic(auto, unfolding(text::specs::Pages::with_text))]
pub fn put_fault(out: &mut [u8], at: usize, refusal: u8, byte: usize) -> usize
    ensures { Printed out.old at (fault_line refusal byte) result out.new }
{
    let mut page = Page {
        bytes: out,
        place: at,
    };
    put_fault_line(&mut page, refusal, byte);
    page.place
}
