// What each event does, planned from the few things that it looks at: the quorums, the power, the client, the pair and the slot.
#![tactic(auto)]

ghost use Rattle.std.specs.Prelude.{◌≡◌, ◌≢◌, cond, Err, Ok, ok_or};
ghost use Rattle.stamps.specs.Stamp.{last_number};
ghost use Rattle.method.specs.Holding.{holds, first_entry, last_entry};
ghost use Rattle.method.specs.Plan.{to_replicas, active_party, unchanged, used_up, answered, current, written, keeps_of, kept_counts, kept_in, kept_of, copy_of, request};
ghost use Rattle.method.specs.Refusals.{decision_of};
ghost use Rattle.method.specs.laws.InTurn.{start_turn, if_on, phase_ends, tell_enough, tell_phase, tell_turn, deliver_turn, resend_turn, stop_turn, off_turn, on_turn};

use method::{Body, Decision, Event, Goal, Message, Note, Operation, Party, Phase, Plan, Sight};
use record::{Cell, Client, Entry, Replica};
use refusal::Refusal;
use stamps::{Pair, Stamp, raise};

// A client's message to replicas: each of them is put in for replica 0.
fn to_replicas(client: Client, cell: Cell, op: u16, body: Body) -> Message
    ensures { result ≡ to_replicas client cell op body }
{
    Message {
        client,
        replica: Replica(0),
        cell,
        op,
        body,
    }
}

// All stays as it was, and nothing is sent.
fn unchanged(sight: Sight) -> Plan
    ensures { result ≡ unchanged sight }
{
    Plan {
        party: sight.party,
        pair: sight.pair,
        power: sight.power,
        clear: false,
        note: Note::Nothing,
        message: to_replicas(Client(0), Cell(0), 0, Body::Ask),
        to: 0,
    }
}

// The message is used up and nothing else happens.
fn used_up(sight: Sight, m: Message) -> Plan
    ensures { result ≡ used_up sight m }
{
    Plan {
        clear: true,
        message: m,
        ..unchanged(sight)
    }
}

// A client that isn't stopped.
fn at_work(op: u16, work: Option<Operation>) -> Party
    ensures { result ≡ active_party op work }
{
    Party {
        stopped: false,
        op,
        work,
    }
}

// The client that is to act, if it isn't stopped.
fn unstopped(party: Party) -> Result<Party, u8>
    ensures { result ≡ cond party.stopped (Err 5) (Ok party) }
{
    if party.stopped {
        return Err(Refusal::ClientStopped as u8);
    }
    Ok(party)
}

// Start read, start write. The operation number rises by one, the record gets an entry, an ask goes to every replica. The entry comes with the goal, so that
// the goal isn't looked at again.
#[tactic(auto, unfolding(method::specs::laws::InTurn::start_turn, method::specs::laws::InTurn::start_in, method::specs::Plan::start_of))]
fn start(sight: Sight, client: Client, cell: Cell, goal: Goal, entry: Entry) -> Decision
    requires { entry ≡ first_entry goal client cell }
    ensures { result ≡ start_turn sight client cell goal }
{
    let party = unstopped(sight.party)?;
    if party.work.is_some() {
        return Err(Refusal::AlreadyOpen as u8);
    }
    if party.op == Party::LAST_OP {
        return Err(Refusal::OpSpent as u8);
    }
    let op = party.op + 1;
    let work = Operation {
        cell,
        goal,
        phase: Phase::Asking(None),
        set: 0,
    };
    Ok(Plan {
        party: at_work(op, Some(work)),
        note: Note::Asked(entry),
        message: to_replicas(client, cell, op, Body::Ask),
        to: quorum::every(sight.quorums.replicas),
        ..unchanged(sight)
    })
}

// A replica that is on answers, with this pair after the event.
#[tactic(auto, unfolding(method::specs::laws::InTurn::if_on))]
fn answered(sight: Sight, after: Pair, m: Message, body: Body) -> Decision
    ensures { result ≡ if_on sight m (Ok (answered sight after m body)) }
{
    if !quorum::has(sight.power, m.replica) {
        return Err(Refusal::ReplicaOff as u8);
    }
    Ok(Plan {
        pair: after,
        message: Message { body, ..m },
        to: quorum::with(0, m.replica),
        ..used_up(sight, m)
    })
}

// The client isn't stopped, and the operation number is that of its present operation.
#[tactic(auto, unfolding(method::specs::Plan::current))]
fn current(party: Party, m: Message) -> bool
    ensures { result ≡ current party m }
{
    !party.stopped && party.op == m.op
}

// The set is emptied and keep goes to every replica, with the pair that is then held.
#[tactic(auto, unfolding(method::specs::Plan::keeps_of))]
fn keeps(sight: Sight, m: Message, o: Operation, held: Pair) -> Plan
    ensures { result ≡ keeps_of sight m o held }
{
    let op = sight.party.op;
    let work = Operation {
        phase: Phase::Keeping(held),
        set: 0,
        ..o
    };
    Plan {
        party: at_work(op, Some(work)),
        clear: true,
        message: to_replicas(m.client, o.cell, op, Body::Keep(held)),
        to: quorum::every(sight.quorums.replicas),
        ..unchanged(sight)
    }
}

// The pair of a write: the next number, the client's own rank and the new value.
fn written(client: Client, value: i32, held: Pair) -> Pair
    requires { held.stamp.number ≢ last_number }
    ensures { result ≡ written client value held }
{
    Pair {
        stamp: Stamp {
            number: held.stamp.number + 1,
            rank: client.0,
        },
        value,
    }
}

// The ask phase ends: for a read with the held pair, for a write with the pair that is written.
#[tactic(auto, unfolding(method::specs::laws::InTurn::phase_ends))]
fn phase_ends(sight: Sight, m: Message, o: Operation, held: Pair) -> Decision
    ensures { result ≡ phase_ends o.goal sight m o held }
{
    match o.goal {
        Goal::Read => Ok(keeps(sight, m, o, held)),
        Goal::Write(_) if held.stamp.number == Stamp::LAST => Err(Refusal::NumberSpent as u8),
        Goal::Write(v) => Ok(keeps(sight, m, o, written(m.client, v, held))),
    }
}

// The first tell of a phase is held whole; a later one replaces it only with a greater stamp.
#[tactic(auto, unfolding(method::specs::Holding::holds))]
fn hold(holding: Option<Pair>, q: Pair) -> Pair
    ensures { result ≡ holds holding q }
{
    holding.map_or(q, |held| raise(held, q))
}

// A tell that counts: at a majority the phase ends in that same delivery.
#[tactic(auto, unfolding(method::specs::laws::InTurn::tell_enough))]
fn tell_counts(sight: Sight, m: Message, o: Operation, set: u16, held: Pair) -> Decision
    ensures { result ≡ tell_enough sight m o set held }
{
    if quorum::asks_enough(sight.quorums, set) {
        return phase_ends(sight, m, o, held);
    }
    let work = Operation {
        phase: Phase::Asking(Some(held)),
        set,
        ..o
    };
    Ok(Plan {
        party: at_work(sight.party.op, Some(work)),
        ..used_up(sight, m)
    })
}

// A tell counts only in the ask phase, and if this replica isn't yet in the set.
#[tactic(auto, unfolding(method::specs::laws::InTurn::tell_phase))]
fn tell_open(sight: Sight, m: Message, o: Operation, q: Pair) -> Decision
    ensures { result ≡ tell_phase o.phase sight m o q }
{
    match o.phase {
        Phase::Asking(holding) if !quorum::has(o.set, m.replica) => tell_counts(
            sight,
            m,
            o,
            quorum::with(o.set, m.replica),
            hold(holding, q),
        ),
        _ => Ok(used_up(sight, m)),
    }
}

// A tell counts only for the operation that its client has open.
#[tactic(auto, unfolding(method::specs::laws::InTurn::tell_turn, method::specs::laws::InTurn::tell_work))]
fn tell(sight: Sight, m: Message, q: Pair) -> Decision
    ensures { result ≡ tell_turn sight m q }
{
    match sight.party.work {
        Some(o) if current(sight.party, m) => tell_open(sight, m, o, q),
        _ => Ok(used_up(sight, m)),
    }
}

// The entry that ends an operation: a read gives the held value.
#[tactic(auto, unfolding(method::specs::Holding::last_entry))]
fn last_entry(goal: Goal, client: Client, held: Pair) -> Entry
    ensures { result ≡ last_entry goal client held }
{
    match goal {
        Goal::Read => Entry::Told(client, held.value),
        Goal::Write(_) => Entry::Done(client),
    }
}

// A kept that counts: at a majority the operation ends, the record gets its entry, the client is idle.
#[tactic(auto, unfolding(method::specs::Plan::kept_counts))]
fn kept_counts(sight: Sight, m: Message, o: Operation, set: u16, held: Pair) -> Plan
    ensures { result ≡ kept_counts sight m o set held }
{
    let op = sight.party.op;
    if quorum::keeps_enough(sight.quorums, set) {
        return Plan {
            party: at_work(op, None),
            note: Note::Ended(last_entry(o.goal, m.client, held)),
            ..used_up(sight, m)
        };
    }
    let work = Operation {
        phase: Phase::Keeping(held),
        set,
        ..o
    };
    Plan {
        party: at_work(op, Some(work)),
        ..used_up(sight, m)
    }
}

// A kept counts only in the keep phase, and if this replica isn't yet in the set.
#[tactic(auto, unfolding(method::specs::Plan::kept_in))]
fn kept_open(sight: Sight, m: Message, o: Operation) -> Plan
    ensures { result ≡ kept_in o.phase sight m o }
{
    match o.phase {
        Phase::Keeping(held) if !quorum::has(o.set, m.replica) => kept_counts(
            sight,
            m,
            o,
            quorum::with(o.set, m.replica),
            held,
        ),
        _ => used_up(sight, m),
    }
}

// A kept counts only for the operation that its client has open.
#[tactic(auto, unfolding(method::specs::Plan::kept_of, method::specs::Plan::kept_at))]
fn kept(sight: Sight, m: Message) -> Plan
    ensures { result ≡ kept_of sight m }
{
    match sight.party.work {
        Some(o) if current(sight.party, m) => kept_open(sight, m, o),
        _ => used_up(sight, m),
    }
}

// The message is taken out, then acted on. A replica answers an ask with its pair for that cell; at a keep it takes stamp and value if the stamp is greater
// than its own, and answers kept either way.
#[tactic(auto, unfolding(method::specs::laws::InTurn::deliver_turn, method::specs::Plan::ask_of, method::specs::Plan::keep_of))]
fn deliver(sight: Sight, m: Message) -> Decision
    ensures { result ≡ deliver_turn m.body sight m }
{
    match m.body {
        Body::Ask => answered(sight, sight.pair, m, Body::Tell(sight.pair)),
        Body::Tell(q) => tell(sight, m, q),
        Body::Keep(q) => answered(sight, raise(sight.pair, q), m, Body::Kept),
        Body::Kept => Ok(kept(sight, m)),
    }
}

// The same message also in the lowest free slot.
#[tactic(auto, unfolding(method::specs::Plan::copy_of))]
fn copy(sight: Sight, m: Message) -> Plan
    ensures { result ≡ copy_of sight m }
{
    Plan {
        message: m,
        to: quorum::with(0, m.replica),
        ..unchanged(sight)
    }
}

// The present request: an ask, or a keep with the pair that is held.
fn request(phase: Phase) -> Body
    ensures { result ≡ request phase }
{
    match phase {
        Phase::Asking(_) => Body::Ask,
        Phase::Keeping(held) => Body::Keep(held),
    }
}

// The present request, once more to each replica not in the set. The stamp isn't chosen anew.
#[tactic(auto, unfolding(method::specs::laws::InTurn::resend_turn, method::specs::laws::InTurn::resend_in, method::specs::Plan::resend_of))]
fn resend(sight: Sight, client: Client) -> Decision
    ensures { result ≡ resend_turn sight client }
{
    let party = unstopped(sight.party)?;
    let o = party.work.ok_or(Refusal::NoneOpen as u8)?;
    Ok(Plan {
        message: to_replicas(client, o.cell, party.op, request(o.phase)),
        to: quorum::others(sight.quorums.replicas, o.set),
        ..unchanged(sight)
    })
}

// It never acts again; its operation stays open.
#[tactic(auto, unfolding(method::specs::laws::InTurn::stop_turn, method::specs::Plan::stop_of))]
fn stop(sight: Sight) -> Decision
    ensures { result ≡ stop_turn sight }
{
    let party = unstopped(sight.party)?;
    Ok(Plan {
        party: Party {
            stopped: true,
            ..party
        },
        ..unchanged(sight)
    })
}

// A replica is switched off: its pairs stay.
#[tactic(auto, unfolding(method::specs::laws::InTurn::off_turn))]
fn off(sight: Sight, replica: Replica) -> Decision
    ensures { result ≡ off_turn sight replica }
{
    if !quorum::has(sight.power, replica) {
        return Err(Refusal::SwitchedSo as u8);
    }
    Ok(Plan {
        power: quorum::without(sight.power, replica),
        ..unchanged(sight)
    })
}

// A replica is switched on: its pairs have stayed.
#[tactic(auto, unfolding(method::specs::laws::InTurn::on_turn))]
fn on(sight: Sight, replica: Replica) -> Decision
    ensures { result ≡ on_turn sight replica }
{
    if quorum::has(sight.power, replica) {
        return Err(Refusal::SwitchedSo as u8);
    }
    Ok(Plan {
        power: quorum::with(sight.power, replica),
        ..unchanged(sight)
    })
}

// What a slot holds, if it isn't empty.
fn full(held: Option<Message>) -> Result<Message, u8>
    ensures { result ≡ ok_or held 4 }
{
    held.ok_or(Refusal::SlotEmpty as u8)
}

// What is decided of an event, with what its slot holds: a refusal or its plan.
#[tactic(auto, using(crate::proofs::Turn::decision_is_turn), unfolding(method::specs::laws::InTurn::turn_of, method::specs::laws::InTurn::slot_turn))]
pub fn plan(sight: Sight, held: Option<Message>, event: Event) -> Decision
    ensures { result ≡ decision_of sight held event }
{
    match event {
        Event::StartRead(client, cell) => start(
            sight,
            client,
            cell,
            Goal::Read,
            Entry::ReadAsked(client, cell),
        ),
        Event::StartWrite(client, cell, v) => start(
            sight,
            client,
            cell,
            Goal::Write(v),
            Entry::WriteAsked(client, cell, v),
        ),
        Event::Deliver(_) => deliver(sight, full(held)?),
        Event::Lose(_) => Ok(used_up(sight, full(held)?)),
        Event::Copy(_) => Ok(copy(sight, full(held)?)),
        Event::Resend(client) => resend(sight, client),
        Event::Stop(_) => stop(sight),
        Event::Off(replica) => off(sight, replica),
        Event::On(replica) => on(sight, replica),
        Event::Unknown => Err(Refusal::Unknown as u8),
    }
}
