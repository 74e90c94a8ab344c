// The kinds of thing that events and plans speak of. What each event does is defined over them in specs/, with the method as its law; no function is needed.
#![tactic(auto)]

use quorum::Quorums;
use record::{Cell, Client, Entry, Replica};
use stamps::Pair;

// What a message says.
#[derive(Clone, Copy)]
pub enum Body {
    Ask,
    Tell(Pair),
    Keep(Pair),
    Kept,
}

// A message: between which client and replica, about which cell, for which operation number.
#[derive(Clone, Copy)]
pub struct Message {
    pub client: Client,
    pub replica: Replica,
    pub cell: Cell,
    pub op: u16,
    pub body: Body,
}

// What an open operation is for.
#[derive(Clone, Copy)]
pub enum Goal {
    Read,
    Write(i32),
}

// The phase of an open operation, with what its client holds in it. In the ask phase that is no pair until somebody has told, and from then on the
// greatest pair told; in the keep phase it is the pair to be kept.
#[derive(Clone, Copy)]
pub enum Phase {
    Asking(Option<Pair>),
    Keeping(Pair),
}

// An open operation: its cell, what it is for, its phase, and the set of replicas that have answered in this phase.
#[derive(Clone, Copy)]
pub struct Operation {
    pub cell: Cell,
    pub goal: Goal,
    pub phase: Phase,
    pub set: u16,
}

// A client of the rack: whether it is stopped, its operation number, and its open operation, if any.
#[derive(Clone, Copy)]
pub struct Party {
    pub stopped: bool,
    pub op: u16,
    pub work: Option<Operation>,
}

impl Party {
    // The greatest operation number: no operation starts after it.
    pub const LAST_OP: u16 = u16::MAX;
}

// What an event looks at: the quorums of the rack, the power, and the client and the pair that it is about.
#[derive(Clone, Copy)]
pub struct Sight {
    pub quorums: Quorums,
    pub power: u16,
    pub party: Party,
    pub pair: Pair,
}

// An event. Unknown is what names no kind of event, or a number that no rack has.
#[derive(Clone, Copy)]
pub enum Event {
    StartRead(Client, Cell),
    StartWrite(Client, Cell, i32),
    Deliver(usize),
    Lose(usize),
    Copy(usize),
    Resend(Client),
    Stop(Client),
    Off(Replica),
    On(Replica),
    Unknown,
}

// The entry that an event adds to the record, if any.
#[derive(Clone, Copy)]
pub enum Note {
    Nothing,
    Asked(Entry),
    Ended(Entry),
}

// What an event leaves: the client and the pair that it looked at, the power, whether its slot becomes empty, the entry it adds, and the message it
// sends to each replica of a set.
#[derive(Clone, Copy)]
pub struct Plan {
    pub party: Party,
    pub pair: Pair,
    pub power: u16,
    pub clear: bool,
    pub note: Note,
    pub message: Message,
    pub to: u16,
}

// An event is refused, by its number in the paper, or done as planned.
pub type Decision = Result<Plan, u8>;
