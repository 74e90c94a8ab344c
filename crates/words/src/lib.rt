// A rack in lent memory: words of 32 bits, laid out as crate layout says, and schedules run on it.
#![tactic(auto)]

ghost use Rattle.std.specs.Prelude.{◌≡◌, true, cond, ◌+◌, ◌≤◌, ◌<◌, length, get_or, ltb, Some};
ghost use Rattle.std.proofs.lemmas.List.Edits.{sets};
ghost use Rattle.record.specs.Entry.{client_limit};
ghost use Rattle.record.specs.Record.{entry_limit};
ghost use Rattle.rows.specs.Row.{entry_of, row_of};
ghost use Rattle.stamps.specs.Stamp.{fresh_pair};
ghost use Rattle.rack.specs.Places.{replica_limit, slot_limit, pair_limit};
ghost use Rattle.rack.specs.Sound.{all_below, sound_of};
ghost use Rattle.layout.specs.Layout.{party_size, work_size, pair_size, slot_size, entry_size, word_count, party_place, pair_place, slot_place, entry_place};
ghost use Rattle.layout.specs.Layout.{stray_number, op_limit, power_limit, word, firsts};
ghost use Rattle.layout.specs.Reading.{byte_of, set_of, pair_in, goal_of, holding_of, phase_of, operation_of, operation_in, work_in, party_known, stray_party, party_in};
ghost use Rattle.layout.specs.Reading.{body_of, message_known, stray_held, full_in, held_of, slot_in};
ghost use Rattle.layout.specs.Reading.{entry_known, line_known, line_in, lines_in, entry_count, count_in, power_of, settings_in, rack_of};
ghost use Rattle.layout.specs.Writing.{pair_words, phase_word, holding_words, held_words, open_words, operation_words, work_words, party_words};
ghost use Rattle.layout.specs.Writing.{body_kind, body_words, slot_words, head_of, parties_put, pair_written, pairs_put, wire_put, record_put, written_of};
ghost use Rattle.layout.specs.Calls.{made_outcome, run_outcome};

use layout::WordsAnswer;
use method::{Body, Goal, Message, Operation, Party, Phase};
use rack::{Line, Rack, Settings, Slot};
use record::{Cell, Client, Entry, Replica};
use refusal::Refusal;
use stamps::{Pair, Stamp};
// How many words the head, a client, a pair, a slot and an entry take.
const HEAD_WORDS: usize = 5;

const PARTY_WORDS: usize = 10;

const PAIR_WORDS: usize = 3;

const SLOT_WORDS: usize = 9;

const ENTRY_WORDS: usize = 4;

// How many words say what a client is at: all of its own but two.
const WORK_WORDS: usize = PARTY_WORDS - 2;

// How many of those say what its operation is, beside the pair that it holds.
const OPEN_WORDS: usize = WORK_WORDS - PAIR_WORDS;

// Where the clients, the pairs, the slots and the entries begin, each where those before them end; and how many words a rack takes.
const PARTIES_AT: usize = HEAD_WORDS;

const PAIRS_AT: usize = PARTIES_AT + PARTY_WORDS * Client::LIMIT;

const SLOTS_AT: usize = PAIRS_AT + PAIR_WORDS * Rack::PAIRS;

const ENTRIES_AT: usize = SLOTS_AT + SLOT_WORDS * Rack::SLOTS;

pub const WORDS: usize = ENTRIES_AT + ENTRY_WORDS * Rack::ENTRIES;

// Limits of what a word holds: an operation number, a client's number, a cell's, a count of entries, the replicas' power.
const OP_LIMIT: u32 = Party::LAST_OP as u32 + 1;

const CLIENT_LIMIT: u32 = Client::LIMIT as u32;

const CELL_LIMIT: u32 = Cell::LIMIT as u32;

const MOST_ENTRIES: u32 = Rack::ENTRIES as u32;

const POWER_LIMIT: u32 = 1 << Replica::LIMIT;

// A count that no record has.
const NO_COUNT: usize = Rack::ENTRIES + 1;

// A number that no rack has.
const STRAY: u8 = u8::MAX;

// ---- reading

// A number that a byte can't hold is one that no rack has.
fn byte(word: u32) -> u8
    ensures { result ≡ byte_of word }
{
    u8::try_from(word).unwrap_or(STRAY)
}

fn set_of(word: u32) -> u16
    ensures { result ≡ set_of word }
{
    u16::try_from(word).unwrap_or(u16::MAX)
}

fn pair_at(words: &[u32; WORDS], at: usize) -> Pair
    requires { at + pair_size ≤ word_count }
    ensures { result ≡ pair_in words.now at }
{
    Pair {
        stamp: Stamp {
            number: words[at],
            rank: byte(words[at + 1]),
        },
        value: number::signed(words[at + 2]),
    }
}

#[tactic(auto, unfolding(layout::specs::Reading::goal_of))]
fn goal_of(goal: u32, value: u32) -> Goal
    ensures { result ≡ goal_of goal value }
{
    if goal == 0 {
        Goal::Read
    } else {
        Goal::Write(number::signed(value))
    }
}

// Nothing is held while nobody has told.
#[tactic(auto, unfolding(layout::specs::Reading::holding_of))]
fn holding_of(set: u16, pair: Pair) -> Option<Pair>
    ensures { result ≡ holding_of set pair }
{
    if set == 0 { None } else { Some(pair) }
}

#[tactic(auto, unfolding(layout::specs::Reading::phase_of))]
fn phase_of(phase: u32, set: u16, pair: Pair) -> Phase
    ensures { result ≡ phase_of phase set pair }
{
    if phase == 1 {
        Phase::Asking(holding_of(set, pair))
    } else {
        Phase::Keeping(pair)
    }
}

#[tactic(auto, unfolding(layout::specs::Reading::operation_of))]
fn operation_of(phase: u32, cell: u32, goal: Goal, set: u32, pair: Pair) -> Operation
    ensures { result ≡ operation_of phase cell goal set pair }
{
    let set = set_of(set);
    Operation {
        cell: Cell(byte(cell)),
        goal,
        phase: phase_of(phase, set, pair),
        set,
    }
}

#[tactic(auto, unfolding(layout::specs::Reading::operation_in))]
fn operation_at(words: &[u32; WORDS], at: usize) -> Operation
    requires { at + work_size ≤ word_count }
    ensures { result ≡ operation_in words.now at }
{
    let goal = goal_of(words[at + 2], words[at + 3]);
    let pair = pair_at(words, at + 5);
    operation_of(words[at], words[at + 1], goal, words[at + 4], pair)
}

#[tactic(auto, unfolding(layout::specs::Reading::work_in))]
fn work_at(words: &[u32; WORDS], at: usize) -> Option<Operation>
    requires { at + work_size ≤ word_count }
    ensures { result ≡ work_in words.now at }
{
    if words[at] == 0 {
        None
    } else {
        Some(operation_at(words, at))
    }
}

#[tactic(auto, unfolding(layout::specs::Reading::party_known))]
fn party_known(stopped: u32, op: u32, phase: u32, goal: u32) -> bool
    ensures { result ≡ party_known stopped op phase goal }
{
    stopped < 2 && op < OP_LIMIT && phase < 3 && (phase == 0 || goal < 2)
}

// A client that no rack has: words that are none are read as it.
fn stray_party() -> Party
    ensures { result ≡ stray_party }
{
    Party {
        stopped: false,
        op: 0,
        work: Some(Operation {
            cell: Cell(STRAY),
            goal: Goal::Read,
            phase: Phase::Keeping(stamps::fresh_pair()),
            set: 0,
        }),
    }
}

#[tactic(auto, unfolding(layout::specs::Reading::party_in))]
fn party_at(words: &[u32; WORDS], at: usize) -> Party
    requires { at + party_size ≤ word_count }
    ensures { result ≡ party_in words.now at }
{
    if party_known(words[at], words[at + 1], words[at + 2], words[at + 4]) {
        Party {
            stopped: words[at] == 1,
            op: words[at + 1] as u16,
            work: work_at(words, at + 2),
        }
    } else {
        stray_party()
    }
}

#[tactic(auto, unfolding(layout::specs::Reading::body_of))]
fn body_of(body: u32, pair: Pair) -> Body
    ensures { result ≡ body_of body pair }
{
    match body {
        0 => Body::Ask,
        1 => Body::Tell(pair),
        2 => Body::Keep(pair),
        _ => Body::Kept,
    }
}

#[tactic(auto, unfolding(layout::specs::Reading::message_known))]
fn message_known(mark: u32, body: u32, op: u32) -> bool
    ensures { result ≡ message_known mark body op }
{
    mark == 1 && body < 4 && op < OP_LIMIT
}

// A message that no rack has: words that are none are read as it.
fn stray_held() -> Option<Message>
    ensures { result ≡ stray_held }
{
    Some(Message {
        client: Client(STRAY),
        replica: Replica(0),
        cell: Cell(0),
        op: 0,
        body: Body::Ask,
    })
}

#[tactic(auto, unfolding(layout::specs::Reading::full_in))]
fn full_at(words: &[u32; WORDS], at: usize) -> Option<Message>
    requires { (at + slot_size ≤ word_count) × (word words.now (at + 5) < op_limit) }
    ensures { result ≡ full_in words.now at }
{
    Some(Message {
        client: Client(byte(words[at + 2])),
        replica: Replica(byte(words[at + 3])),
        cell: Cell(byte(words[at + 4])),
        op: words[at + 5] as u16,
        body: body_of(words[at + 1], pair_at(words, at + 6)),
    })
}

#[tactic(auto, unfolding(layout::specs::Reading::held_of))]
fn held_at(words: &[u32; WORDS], at: usize) -> Option<Message>
    requires { at + slot_size ≤ word_count }
    ensures { result ≡ held_of words.now at }
{
    if words[at] == 0 {
        None
    } else if message_known(words[at], words[at + 1], words[at + 5]) {
        full_at(words, at)
    } else {
        stray_held()
    }
}

#[tactic(auto, unfolding(rows::specs::Row::entry_of))]
fn entry_of(kind: u32, client: Client, cell: Cell, value: u32) -> Entry
    ensures { result ≡ entry_of kind client.0 cell.0 value }
{
    match kind {
        0 => Entry::ReadAsked(client, cell),
        1 => Entry::WriteAsked(client, cell, number::signed(value)),
        2 => Entry::Told(client, number::signed(value)),
        _ => Entry::Done(client),
    }
}

#[tactic(auto, unfolding(layout::specs::Reading::line_in))]
fn line_at(words: &[u32; WORDS], at: usize) -> Line
    requires { at + entry_size ≤ word_count }
    ensures { result ≡ line_in words.now at }
{
    let client = Client(byte(words[at + 1]));
    let cell = Cell(byte(words[at + 2]));
    Line {
        entry: entry_of(words[at], client, cell, words[at + 3]),
    }
}

#[tactic(auto, unfolding(layout::specs::Reading::entry_known))]
fn entry_known(kind: u32, client: u32, cell: u32) -> bool
    ensures { result ≡ entry_known kind client cell }
{
    kind < 4 && client < CLIENT_LIMIT && (!(kind < 2) || cell < CELL_LIMIT)
}

// ---- reading each part

fn parties_of(words: &[u32; WORDS]) -> [Party; Client::LIMIT]
    ensures { result ≡ firsts client_limit (λ i. party_in words.now (party_place i)) }
{
    let mut parties = [stray_party(); Client::LIMIT];
    for i in 0..Client::LIMIT {
        parties[i] = party_at(words, PARTIES_AT + PARTY_WORDS * i);
    }
    parties
}

fn pairs_of(words: &[u32; WORDS]) -> [Pair; Rack::PAIRS]
    ensures { result ≡ firsts pair_limit (λ i. pair_in words.now (pair_place i)) }
{
    let mut pairs = [stamps::fresh_pair(); Rack::PAIRS];
    for i in 0..Rack::PAIRS {
        pairs[i] = pair_at(words, PAIRS_AT + PAIR_WORDS * i);
    }
    pairs
}

#[tactic(auto, unfolding(layout::specs::Reading::slot_in))]
fn slot_at(words: &[u32; WORDS], at: usize) -> Slot
    requires { at + slot_size ≤ word_count }
    ensures { result ≡ slot_in words.now at }
{
    Slot {
        held: held_at(words, at),
    }
}

fn wire_of(words: &[u32; WORDS]) -> [Slot; Rack::SLOTS]
    ensures { result ≡ firsts slot_limit (λ i. slot_in words.now (slot_place i)) }
{
    let empty = Slot { held: None };
    let mut wire = [empty; Rack::SLOTS];
    for i in 0..Rack::SLOTS {
        wire[i] = slot_at(words, SLOTS_AT + SLOT_WORDS * i);
    }
    wire
}

// Past the first n entries stands what a fresh rack has there.
fn lines_of(words: &[u32; WORDS], n: usize) -> [Line; Rack::ENTRIES]
    requires { n ≤ entry_limit }
    ensures { result ≡ lines_in n words.now }
{
    let entry = Entry::Done(Client(0));
    let blank = Line { entry };
    let mut lines = [blank; Rack::ENTRIES];
    for i in 0..n {
        lines[i] = line_at(words, ENTRIES_AT + ENTRY_WORDS * i);
    }
    lines
}

#[tactic(auto, unfolding(layout::specs::Reading::line_known))]
fn line_known(words: &[u32; WORDS], at: usize) -> bool
    requires { at + entry_size ≤ word_count }
    ensures { result ≡ line_known words.now at }
{
    entry_known(words[at], words[at + 1], words[at + 2])
}

fn lines_known(words: &[u32; WORDS], n: usize) -> bool
    requires { n ≤ entry_limit }
    ensures { result ≡ all_below n (λ i. line_known words.now (entry_place i)) }
{
    (0..n).all(|i| line_known(words, ENTRIES_AT + ENTRY_WORDS * i))
}

// How many entries there are to look at.
#[tactic(auto, unfolding(layout::specs::Reading::entry_count))]
fn count_of(words: &[u32; WORDS]) -> usize
    ensures { (result ≡ entry_count words.now) × (result ≤ entry_limit) }
{
    Rack::ENTRIES.min(words[4] as usize)
}

// A count that is no count is one more than a record holds.
fn count_in(words: &[u32; WORDS], n: usize) -> usize
    requires { (n ≡ entry_count words.now) × (n ≤ entry_limit) }
    ensures { result ≡ count_in words.now }
{
    if MOST_ENTRIES < words[4] {
        NO_COUNT
    } else if lines_known(words, n) {
        words[4] as usize
    } else {
        NO_COUNT
    }
}

#[tactic(auto, unfolding(layout::specs::Reading::power_of))]
fn power_of(word: u32) -> u16
    ensures { result ≡ power_of word }
{
    if word < POWER_LIMIT { word as u16 } else { 0 }
}

fn replicas_of(replicas: u32, power: u32) -> u8
    ensures { result ≡ cond (ltb power power_limit) (byte_of replicas) stray_number }
{
    if power < POWER_LIMIT {
        byte(replicas)
    } else {
        STRAY
    }
}

#[tactic(auto, unfolding(layout::specs::Reading::settings_in))]
fn settings_of(words: &[u32; WORDS]) -> Settings
    ensures { result ≡ settings_in words.now }
{
    Settings {
        replicas: replicas_of(words[0], words[3]),
        clients: byte(words[1]),
        cells: byte(words[2]),
    }
}

// The rack of the words.
#[tactic(auto, unfolding(layout::specs::Reading::rack_of))]
fn load(words: &[u32; WORDS]) -> Rack
    ensures { result ≡ rack_of words.now }
{
    let n = count_of(words);
    Rack {
        settings: settings_of(words),
        power: power_of(words[3]),
        count: count_in(words, n),
        parties: parties_of(words),
        pairs: pairs_of(words),
        wire: wire_of(words),
        lines: lines_of(words, n),
    }
}

// ---- the words of each part

fn pair_words(pair: Pair) -> [u32; PAIR_WORDS]
    ensures { result ≡ pair_words pair }
{
    [
        pair.stamp.number,
        u32::from(pair.stamp.rank),
        number::alternating(pair.value),
    ]
}

#[tactic(auto, unfolding(layout::specs::Writing::open_words))]
fn open_words(phase: u32, cell: Cell, goal: Goal, set: u16) -> [u32; OPEN_WORDS]
    ensures { result ≡ open_words phase cell goal set }
{
    match goal {
        Goal::Read => [phase, u32::from(cell.0), 0, 0, u32::from(set)],
        Goal::Write(v) => [
            phase,
            u32::from(cell.0),
            1,
            number::alternating(v),
            u32::from(set),
        ],
    }
}

#[tactic(auto, unfolding(layout::specs::Writing::phase_word))]
fn phase_word(phase: Phase) -> u32
    ensures { result ≡ phase_word phase }
{
    match phase {
        Phase::Asking(_) => 1,
        Phase::Keeping(_) => 2,
    }
}

#[tactic(auto, unfolding(layout::specs::Writing::holding_words))]
fn holding_words(held: Option<Pair>) -> [u32; PAIR_WORDS]
    ensures { result ≡ holding_words held }
{
    match held {
        None => [0; PAIR_WORDS],
        Some(pair) => pair_words(pair),
    }
}

#[tactic(auto, unfolding(layout::specs::Writing::held_words))]
fn held_words(phase: Phase) -> [u32; PAIR_WORDS]
    ensures { result ≡ held_words phase }
{
    match phase {
        Phase::Asking(held) => holding_words(held),
        Phase::Keeping(pair) => pair_words(pair),
    }
}

fn operation_words(operation: Operation) -> [u32; WORK_WORDS]
    ensures { result ≡ operation_words operation }
{
    let phase = phase_word(operation.phase);
    let [phase, cell, goal, value, set] = open_words(
        phase,
        operation.cell,
        operation.goal,
        operation.set,
    );
    let [number, rank, held] = held_words(operation.phase);
    [phase, cell, goal, value, set, number, rank, held]
}

#[tactic(auto, unfolding(layout::specs::Writing::work_words))]
fn work_words(work: Option<Operation>) -> [u32; WORK_WORDS]
    ensures { result ≡ work_words work }
{
    match work {
        None => [0; WORK_WORDS],
        Some(operation) => operation_words(operation),
    }
}

#[tactic(auto, unfolding(layout::specs::Writing::body_kind))]
fn body_kind(body: Body) -> u32
    ensures { result ≡ body_kind body }
{
    match body {
        Body::Ask => 0,
        Body::Tell(_) => 1,
        Body::Keep(_) => 2,
        Body::Kept => 3,
    }
}

#[tactic(auto, unfolding(layout::specs::Writing::body_words))]
fn body_words(body: Body) -> [u32; PAIR_WORDS]
    ensures { result ≡ body_words body }
{
    match body {
        Body::Ask | Body::Kept => [0; PAIR_WORDS],
        Body::Tell(pair) | Body::Keep(pair) => pair_words(pair),
    }
}

fn message_words(m: Message) -> [u32; SLOT_WORDS]
    ensures { result ≡ slot_words (Some m) }
{
    let [number, rank, value] = body_words(m.body);
    [
        1,
        body_kind(m.body),
        u32::from(m.client.0),
        u32::from(m.replica.0),
        u32::from(m.cell.0),
        u32::from(m.op),
        number,
        rank,
        value,
    ]
}

// ---- writing each part

// Some words, one after another.
fn put(words: &mut [u32; WORDS], at: usize, new: &[u32])
    requires { at + length new.now ≤ word_count }
    ensures { words.new ≡ sets words.old at new.now }
{
    words[at..at + new.len()].copy_from_slice(new);
}

#[tactic(auto, unfolding(layout::specs::Writing::head_of))]
fn put_head(words: &mut [u32; WORDS], rack: &Rack)
    requires { rack.now.count ≤ entry_limit }
    ensures { words.new ≡ head_of rack.now words.old }
{
    let head = [
        u32::from(rack.settings.replicas),
        u32::from(rack.settings.clients),
        u32::from(rack.settings.cells),
        u32::from(rack.power),
        rack.count as u32,
    ];
    put(words, 0, &head);
}

fn put_party(words: &mut [u32; WORDS], at: usize, party: Party)
    requires { at + party_size ≤ word_count }
    ensures { words.new ≡ sets words.old at (party_words party) }
{
    put(words, at, &[u32::from(party.stopped), u32::from(party.op)]);
    put(words, at + 2, &work_words(party.work));
}

#[tactic(auto, unfolding(layout::specs::Writing::parties_put))]
fn put_parties(words: &mut [u32; WORDS], rack: &Rack)
    requires { rack.now.settings.clients ≤ client_limit }
    ensures { words.new ≡ parties_put rack.now words.old }
{
    for i in 0..usize::from(rack.settings.clients) {
        put_party(words, PARTIES_AT + PARTY_WORDS * i, rack.parties[i]);
    }
}

// A pair of a cell that the rack hasn't got is not written.
#[tactic(auto, unfolding(layout::specs::Writing::pair_written))]
fn put_pair(words: &mut [u32; WORDS], rack: &Rack, i: usize)
    requires { i < pair_limit }
    ensures { words.new ≡ sets words.old (pair_place i) (pair_written rack.now.settings.cells i (get_or rack.now.pairs i fresh_pair)) }
{
    if i % Cell::LIMIT < usize::from(rack.settings.cells) {
        put(words, PAIRS_AT + PAIR_WORDS * i, &pair_words(rack.pairs[i]));
    }
}

#[tactic(auto, unfolding(layout::specs::Writing::pairs_put))]
fn put_pairs(words: &mut [u32; WORDS], rack: &Rack)
    requires { rack.now.settings.replicas ≤ replica_limit }
    ensures { words.new ≡ pairs_put rack.now words.old }
{
    for i in 0..Cell::LIMIT * usize::from(rack.settings.replicas) {
        put_pair(words, rack, i);
    }
}

#[tactic(auto, unfolding(layout::specs::Writing::slot_words))]
fn put_slot(words: &mut [u32; WORDS], at: usize, held: Option<Message>)
    requires { at + slot_size ≤ word_count }
    ensures { words.new ≡ sets words.old at (slot_words held) }
{
    match held {
        None => put(words, at, &[0; SLOT_WORDS]),
        Some(m) => put(words, at, &message_words(m)),
    }
}

#[tactic(auto, unfolding(layout::specs::Writing::wire_put))]
fn put_wire(words: &mut [u32; WORDS], rack: &Rack)
    ensures { words.new ≡ wire_put rack.now words.old }
{
    for i in 0..Rack::SLOTS {
        put_slot(words, SLOTS_AT + SLOT_WORDS * i, rack.wire[i].held);
    }
}

// An entry's row, stored by the call that the reader has too.
fn put_entry(words: &mut [u32; WORDS], at: usize, entry: Entry)
    requires { at + entry_size ≤ word_count }
    ensures { words.new ≡ sets words.old at (row_of entry) }
{
    rows::store_row(words, at, entry);
}

#[tactic(auto, unfolding(layout::specs::Writing::record_put))]
fn put_lines(words: &mut [u32; WORDS], rack: &Rack)
    requires { rack.now.count ≤ entry_limit }
    ensures { words.new ≡ record_put rack.now words.old }
{
    for i in 0..rack.count {
        put_entry(words, ENTRIES_AT + ENTRY_WORDS * i, rack.lines[i].entry);
    }
}

// The rack in its words.
#[tactic(auto, unfolding(layout::specs::Writing::written_of))]
fn store(words: &mut [u32; WORDS], rack: &Rack)
    requires { sound_of rack.now ≡ true }
    ensures { words.new ≡ written_of rack.now words.old }
{
    put_head(words, rack);
    put_parties(words, rack);
    put_pairs(words, rack);
    put_wire(words, rack);
    put_lines(words, rack);
}

// ---- the calls

// What is answered where the lent words are no rack's.
const UNFIT: WordsAnswer = WordsAnswer {
    done: 0,
    refusal: Refusal::TooShort as u8,
};

// Writes the fresh rack of these sizes; where one is out of range, that is refused 1 and the fresh rack is of sizes 1, 1, 1.
pub fn made(words: &mut [u32], replicas: u32, clients: u32, cells: u32) -> WordsAnswer
    ensures { (result ≡ (made_outcome replicas clients cells words.old).answer) × (words.new ≡ (made_outcome replicas clients cells words.old).lent) }
{
    let Some(words) = words.as_mut_array::<WORDS>() else {
        return UNFIT;
    };
    let made = Rack::made(replicas, clients, cells);
    words.fill(0);
    store(words, &made.rack);
    WordsAnswer {
        done: 0,
        refusal: made.refusal,
    }
}

// Runs a schedule on the rack of the words.
pub fn run(words: &mut [u32], allowance: usize, events: &[u32]) -> WordsAnswer
    ensures { (result ≡ (run_outcome words.old allowance events.now).answer) ×
        (words.new ≡ (run_outcome words.old allowance events.now).lent) }
{
    let Some(words) = words.as_mut_array::<WORDS>() else {
        return UNFIT;
    };
    let ran = schedule::run(load(words), allowance, events);
    if ran.done == 0 {
        return WordsAnswer {
            done: 0,
            refusal: ran.refusal,
        };
    }
    let after = ran.rack;
    store(words, &after);
    WordsAnswer {
        done: ran.done,
        refusal: ran.refusal,
    }
}
