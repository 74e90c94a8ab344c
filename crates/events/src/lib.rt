// Events: from four words, what they are about, and the refusals that every plan has to pass.
#![tactic(auto)]

ghost use Rattle.std.specs.Prelude.{◌≡◌, ◌+◌, ◌<◌, ◌≤◌, ltb};
ghost use Rattle.std.specs.Int.Count.{ones};
ghost use Rattle.method.specs.About.{client_in, client_of};
ghost use Rattle.record.specs.Record.{entry_limit};
ghost use Rattle.rack.specs.Sound.{owed_in};
ghost use Rattle.rack.specs.Run.{event_of};
ghost use Rattle.rack.specs.Refusals.{freed, checked};
ghost use Rattle.rack.specs.Looking.{in_rack, slot_of, place_in};

use method::{Decision, Event, Message, Note, Party};
use quorum::Set;
use rack::owed::owed_by_all;
use rack::{Rack, Settings};
use record::{Cell, Client, Replica};
use refusal::Refusal;

// How many entries there may be, with the answers owed, for a start: it needs a place for its own entry and one for its answer.
const ENTRIES_AT_START: usize = Rack::ENTRIES - 2;

// A client's, a replica's or a cell's number is a byte; what isn't is no number of any rack.
fn byte<F: FnOnce(u8) -> Event>(a: u32, event: F) -> Event
    requires { F.IsAlwaysCallable event }
    ensures is_byte { a < 256 → F.post event a result }
    ensures no_byte { 256 ≤ a → result ≡ Event.Unknown }
{
    match u8::try_from(a) {
        Ok(x) => event(x),
        Err(_) => Event::Unknown,
    }
}

// The event that four words name: its kind, two fields, the value as in the record.
#[tactic(auto, unfolding(rack::specs::Run::event_of, rack::specs::Run::byte))]
pub fn decode(kind: u32, a: u32, b: u32, value: u32) -> Event
    ensures { result ≡ event_of kind a b value }
{
    match kind {
        0 => byte(
            a,
            |client| byte(b, |cell| Event::StartRead(Client(client), Cell(cell))),
        ),
        1 => byte(
            a,
            |client| byte(
                b,
                |cell| Event::StartWrite(Client(client), Cell(cell), number::signed(value)),
            ),
        ),
        2 => Event::Deliver(a as usize),
        3 => Event::Lose(a as usize),
        4 => Event::Copy(a as usize),
        5 => byte(a, |client| Event::Resend(Client(client))),
        6 => byte(a, |client| Event::Stop(Client(client))),
        7 => byte(a, |replica| Event::Off(Replica(replica))),
        8 => byte(a, |replica| Event::On(Replica(replica))),
        _ => Event::Unknown,
    }
}

// Whether an event's numbers are in this rack.
#[tactic(auto, unfolding(rack::specs::Looking::in_rack))]
pub fn in_rack(settings: Settings, event: Event) -> bool
    ensures { result ≡ in_rack settings event }
{
    match event {
        Event::StartRead(client, cell) | Event::StartWrite(client, cell, _) => {
            client.0 < settings.clients && cell.0 < settings.cells
        }
        Event::Deliver(slot) | Event::Lose(slot) | Event::Copy(slot) => slot < Rack::SLOTS,
        Event::Resend(client) | Event::Stop(client) => client.0 < settings.clients,
        Event::Off(replica) | Event::On(replica) => replica.0 < settings.replicas,
        Event::Unknown => false,
    }
}

// An event's slot; slot 0 where it names none.
#[tactic(auto, unfolding(rack::specs::Looking::slot_of))]
pub fn slot_of(event: Event) -> usize
    ensures { result ≡ slot_of event }
{
    match event {
        Event::Deliver(slot) | Event::Lose(slot) | Event::Copy(slot) => slot,
        _ => 0,
    }
}

// The client that a slot's message is about; 0 where it is empty.
#[tactic(auto, unfolding(method::specs::About::client_in))]
fn client_in(held: Option<Message>) -> usize
    ensures { result ≡ client_in held }
{
    held.map_or(0, |m| usize::from(m.client.0))
}

// The place of the pair that a slot's message is about; 0 where it is empty.
#[tactic(auto, unfolding(rack::specs::Looking::place_in))]
pub fn place_in(held: Option<Message>) -> usize
    ensures { result ≡ place_in held }
{
    held.map_or(
        0,
        |m| Cell::LIMIT * usize::from(m.replica.0) + usize::from(m.cell.0),
    )
}

// An event's client: the one it names, else its message's.
#[tactic(auto, unfolding(method::specs::About::client_of))]
pub fn client_of(event: Event, held: Option<Message>) -> usize
    ensures { result ≡ client_of event held }
{
    match event {
        Event::StartRead(client, _)
        | Event::StartWrite(client, _, _)
        | Event::Resend(client)
        | Event::Stop(client) => usize::from(client.0),
        Event::Deliver(_) | Event::Lose(_) | Event::Copy(_) => client_in(held),
        Event::Off(_) | Event::On(_) | Event::Unknown => 0,
    }
}

// Whether there is more to send than free slots; a slot that becomes empty counts as free.
#[tactic(auto, unfolding(rack::specs::Refusals::freed))]
fn short(room: usize, clear: bool, to: Set) -> bool
    ensures { result ≡ ltb (room + freed clear) (ones to) }
{
    room.saturating_add(usize::from(clear)) < quorum::count(to) as usize
}

// Whether there is no place for an entry and its answer beside the entries and the answers owed.
fn crowded(count: usize, owed: usize) -> bool
    ensures { result ≡ ltb entry_limit (count + owed + 2) }
{
    ENTRIES_AT_START < count.saturating_add(owed)
}

// The refusals that every plan has to pass: 11 with as many entries and these clients, and 13, more to send than free slots, with as much room. The answers
// owed are counted for a start alone: no other plan asks for them.
#[tactic(auto, unfolding(rack::specs::Refusals::checked, rack::specs::Refusals::noted))]
pub fn checked(
    outcome: Decision,
    count: usize,
    parties: [Party; Client::LIMIT],
    clients: u8,
    room: usize,
) -> Decision
    ensures { result ≡ checked outcome (count + owed_in clients parties) room }
{
    let plan = outcome?;
    match plan.note {
        Note::Asked(_) if crowded(count, owed_by_all(parties, clients)) => Err(
            Refusal::RecordFull as u8,
        ),
        _ if short(room, plan.clear, plan.to) => Err(Refusal::WireFull as u8),
        _ => outcome,
    }
}
