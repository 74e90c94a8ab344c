// The engine's state: a rack of replicas, clients and cells joined by a wire; its maker, and the answers owed. What events and schedules leave of it is
// defined in specs/.
#![tactic(auto)]

pub mod maker;
pub mod owed;

use method::{Message, Party};
use record::{Client, Entry};
use stamps::Pair;

// A slot of the wire.
#[derive(Clone, Copy)]
pub struct Slot {
    pub held: Option<Message>,
}

// A place of the record.
#[derive(Clone, Copy)]
pub struct Line {
    pub entry: Entry,
}

// How many replicas, clients and cells a rack has.
#[derive(Clone, Copy)]
pub struct Settings {
    pub replicas: u8,
    pub clients: u8,
    pub cells: u8,
}

// A rack. Of each array only the places within the sizes are part of it, of `lines`, the record, the first `count`, of `power` the bits of its replicas;
// the pair of replica k for cell x stands at `Cell::LIMIT` k + x. Other places are never looked at and never changed.
#[derive(Clone, Copy)]
pub struct Rack {
    pub settings: Settings,
    pub power: u16,
    pub count: usize,
    pub parties: [Party; Client::LIMIT],
    pub pairs: [Pair; Rack::PAIRS],
    pub wire: [Slot; Rack::SLOTS],
    pub lines: [Line; Rack::ENTRIES],
}

// What the maker gives: the refusal, 0 for none, and the rack.
#[derive(Clone, Copy)]
pub struct Made {
    pub refusal: u8,
    pub rack: Rack,
}

// What a schedule gives: how many events were done, the refusal that stopped it, 0 for none, and the rack after exactly that many events.
#[derive(Clone, Copy)]
pub struct Ran {
    pub done: usize,
    pub refusal: u8,
    pub rack: Rack,
}
