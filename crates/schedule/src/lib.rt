// A schedule of events on a rack, with an allowance.
#![tactic(auto)]

ghost use Rattle.std.specs.Prelude.{◌≡◌, true, [], ◌∷◌, ◌+◌, ◌-◌, ◌*◌, ◌<◌, ◌≤◌, length, Ok};
ghost use Rattle.std.specs.Int.Count.{ones};
ghost use Rattle.record.specs.Record.{entry_limit};
ghost use Rattle.slots.specs.Words.{Maps};
ghost use Rattle.rack.specs.Places.{slot_limit, free_at, room_of};
ghost use Rattle.rack.specs.Sound.{sound_of};
ghost use Rattle.rack.specs.Run.{entries_in, applied_of, ran_of, run_from, run_of};
ghost use Rattle.rack.specs.Refusals.{freed, decided};
ghost use Rattle.runs.specs.laws.Steps.{nth_event};
ghost use Rattle.runs.specs.laws.Sending.{slot_after, message_to, Sending};
ghost use Rattle.runs.specs.laws.Loop.{Most, Shipping};
ghost use Rattle.schedule.specs.laws.Turns.{Ready, noted};

use events::{checked, client_of, decode, in_rack, place_in, slot_of};
use method::{Decision, Event, Message, Note, Plan, Sight};
use plan::plan;
use quorum::{Quorums, Set};
use rack::{Line, Rack, Ran, Slot};
use record::Replica;
use refusal::Refusal;

// ---- the events

// How many words an event is.
pub const EVENT_WORDS: usize = 4;

// Event i of the words.
fn event_at(events: &[u32], i: usize) -> Event
    requires { 4 * i + 4 ≤ length events.now }
    ensures { result ≡ nth_event events.now i }
{
    decode(
        events[EVENT_WORDS * i],
        events[EVENT_WORDS * i + 1],
        events[EVENT_WORDS * i + 2],
        events[EVENT_WORDS * i + 3],
    )
}

// How many events can be tried: the whole ones, as far as the allowance goes.
fn most(allowance: usize, words: usize) -> usize
    ensures { Most allowance words result }
{
    allowance.min(words / EVENT_WORDS)
}

// ---- what is sent

// The message to replica k.
#[tactic(auto, unfolding(runs::specs::laws::Sending::message_to))]
fn message_to(m: Message, k: Replica) -> Message
    ensures { result ≡ message_to m k.0 }
{
    Message { replica: k, ..m }
}

// The slot after the event: empty where it is cleared.
#[tactic(auto, unfolding(runs::specs::laws::Sending::slot_after))]
fn slot_after(clear: bool, slot: Slot) -> Slot
    ensures { result ≡ slot_after clear slot }
{
    if clear { Slot { held: None } } else { slot }
}

// How many slots are free after the event's was cleared and a message went to each replica of a set.
#[tactic(auto, unfolding(rack::specs::Refusals::freed))]
fn room_after(room: usize, clear: bool, to: Set) -> usize
    requires { (ones to ≤ room + freed clear) × (room ≤ slot_limit) }
    ensures { result ≡ room + freed clear - ones to }
{
    room + usize::from(clear) - quorum::count(to) as usize
}

// ---- the free slots

// The free slots of a wire: which they are, a bit each, and how many.
#[derive(Clone, Copy)]
struct Free {
    map: [u64; slots::WORDS],
    room: usize,
}

fn free_of(rack: &Rack) -> Free
    ensures { (Maps (free_at rack.now.wire) result.map) × (result.room ≡ room_of rack.now.wire) }
{
    let mut map = [0u64; slots::WORDS];
    for (i, slot) in rack.wire.iter().enumerate() {
        slots::mark(&mut map, i, slot.held.is_none());
    }
    Free {
        map,
        room: slots::count(&map),
    }
}

// ---- one event

// Whether the event is refused, or what it leaves.
fn decided(rack: &Rack, free: &Free, event: Event) -> Decision
    requires { Ready rack.now free.now }
    ensures { result ≡ decided rack.now event }
{
    if !in_rack(rack.settings, event) {
        return Err(Refusal::Unknown as u8);
    }
    let held = rack.wire[slot_of(event)].held;
    let sight = Sight {
        quorums: Quorums {
            replicas: rack.settings.replicas,
        },
        power: rack.power,
        party: rack.parties[client_of(event, held)],
        pair: rack.pairs[place_in(held)],
    };
    checked(
        plan(sight, held, event),
        rack.count,
        rack.parties,
        rack.settings.clients,
        free.room,
    )
}

// A message goes to each replica of a set, in the lowest free slots in order.
fn send(rack: &mut Rack, map: &mut [u64; slots::WORDS], message: Message, to: Set)
    requires { Sending rack.old.settings.replicas rack.old.wire message to rack.old.wire map.old to }
    ensures { Shipping rack.old message to rack.new map.new 0 }
{
    let mut left = to;
    while 0 < left {
        let k = quorum::lowest(left);
        left = quorum::rest(left);
        let slot = slots::take(map);
        rack.wire[slot] = Slot {
            held: Some(message_to(message, k)),
        };
    }
}

// The entry that an event adds, if any, stands last.
fn note(rack: &mut Rack, note: Note)
    requires { rack.old.count + entries_in note ≤ entry_limit }
    ensures { rack.new ≡ noted rack.old note }
{
    match note {
        Note::Nothing => {}
        Note::Asked(entry) | Note::Ended(entry) => {
            rack.lines[rack.count] = Line { entry };
            rack.count += 1;
        }
    }
}

// Client, pair, power and slot are stored as planned, then the messages are sent; the entry stands last.
fn apply(rack: &mut Rack, free: &mut Free, event: Event, plan: Plan)
    requires { Ready rack.old free.old × (decided rack.old event ≡ Ok plan) }
    ensures { Ready rack.new free.new × (rack.new ≡ applied_of rack.old event plan) }
{
    let j = slot_of(event);
    let held = rack.wire[j].held;
    rack.parties[client_of(event, held)] = plan.party;
    rack.pairs[place_in(held)] = plan.pair;
    rack.power = plan.power;
    rack.wire[j] = slot_after(plan.clear, rack.wire[j]);
    slots::mark(&mut free.map, j, plan.clear);
    free.room = room_after(free.room, plan.clear, plan.to);
    send(rack, &mut free.map, plan.message, plan.to);
    note(rack, plan.note);
}

// ---- the schedule

fn ran(done: usize, refusal: u8, rack: Rack) -> Ran
    ensures { result ≡ ran_of done refusal rack }
{
    Ran {
        done,
        refusal,
        rack,
    }
}

// The loop, on a sound rack: how many events were done, and the refusal that stopped it, 0 for none. The rack is lent: it is large, and a rack that is
// handed back is copied.
fn go_on(rack: &mut Rack, allowance: usize, events: &[u32]) -> (usize, u8)
    requires { (sound_of rack.old ≡ true) × (length rack.old.wire ≡ slot_limit) }
    ensures { ran_of result.0 result.1 rack.new ≡ run_from 0 rack.old allowance events.now }
{
    let mut free = free_of(rack);
    let n = most(allowance, events.len());
    for i in 0..n {
        let event = event_at(events, i);
        match decided(rack, &free, event) {
            Err(refusal) => return (i, refusal),
            Ok(plan) => apply(rack, &mut free, event, plan),
        }
    }
    (n, 0)
}

// Events of four words each are taken in order until the allowance is used, the list ends or one is refused; words after the last whole event are no
// event. An unsound rack is refused 2 as soon as an event is tried.
pub fn run(rack: Rack, allowance: usize, events: &[u32]) -> Ran
    ensures { result ≡ run_of rack allowance events.now }
{
    if allowance == 0 || events.len() < EVENT_WORDS {
        return ran(0, 0, rack);
    }
    if !soundness::sound(rack) {
        return ran(0, Refusal::Unsound as u8, rack);
    }
    let mut after = rack;
    let (done, refusal) = go_on(&mut after, allowance, events);
    ran(done, refusal, after)
}

// One event.
pub fn step(rack: Rack, kind: u32, a: u32, b: u32, value: u32) -> Ran
    ensures { result ≡ run_of rack 1 (kind ∷ a ∷ b ∷ value ∷ []) }
{
    run(rack, 1, &[kind, a, b, value])
}
