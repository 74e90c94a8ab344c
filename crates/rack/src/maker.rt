// The rack's own maker.
ghost use Rattle.std.specs.Prelude.{◌≡◌};
ghost use Rattle.rack.specs.Places.{of_sizes, idle};
ghost use Rattle.rack.specs.Run.{fresh_rack, made_of};
ghost use Rattle.rack.specs.Sound.{settings_fit};

use crate::{Line, Made, Rack, Settings, Slot};
use method::Party;
use record::{Cell, Client, Entry, Replica};
use refusal::Refusal;
use stamps::fresh_pair;

// The limits of the three sizes, as numbers of their kind.
const MOST_REPLICAS: u32 = Replica::LIMIT as u32;

const MOST_CLIENTS: u32 = Client::LIMIT as u32;

const MOST_CELLS: u32 = Cell::LIMIT as u32;

// 1 to 15 replicas, 1 to 8 clients and 1 to 16 cells.
#[tactic(auto, unfolding(crate::specs::Sound::settings_fit))]
pub fn sizes_in(replicas: u32, clients: u32, cells: u32) -> bool
    ensures { result ≡ settings_fit (of_sizes replicas clients cells) }
{
    (1..=MOST_REPLICAS).contains(&replicas)
        && (1..=MOST_CLIENTS).contains(&clients)
        && (1..=MOST_CELLS).contains(&cells)
}

// A client that has done nothing yet.
fn idle() -> Party
    ensures { result ≡ idle }
{
    Party {
        stopped: false,
        op: 0,
        work: None,
    }
}

// The fresh rack: replicas on, every pair stamp (0, 0) with value 0, clients idle at operation number 0, wire and record empty.
fn fresh(settings: Settings) -> Rack
    ensures { result ≡ fresh_rack settings }
{
    let party = idle();
    let pair = fresh_pair();
    let slot = Slot { held: None };
    let line = Line {
        entry: Entry::Done(Client(0)),
    };
    let power = quorum::every(settings.replicas);
    let parties = [party; Client::LIMIT];
    let pairs = [pair; Rack::PAIRS];
    let wire = [slot; Rack::SLOTS];
    let lines = [line; Rack::ENTRIES];
    Rack {
        settings,
        power,
        count: 0,
        parties,
        pairs,
        wire,
        lines,
    }
}

impl Rack {
    // How many slots a wire has, how many entries a record holds at most, and how many pairs there are places for.
    pub const SLOTS: usize = slots::SLOTS;

    pub const ENTRIES: usize = record::ENTRY_LIMIT;

    pub const PAIRS: usize = Replica::LIMIT * Cell::LIMIT;

    // The fresh rack of these sizes; where one is out of range, that is refused 1 and the fresh rack is of sizes 1, 1, 1.
    #[tactic(auto, unfolding(crate::specs::Run::made_of))]
    pub fn made(replicas: u32, clients: u32, cells: u32) -> Made
        ensures { result ≡ made_of (of_sizes replicas clients cells) }
    {
        if sizes_in(replicas, clients, cells) {
            let settings = Settings {
                replicas: replicas as u8,
                clients: clients as u8,
                cells: cells as u8,
            };
            let rack = fresh(settings);
            return Made { refusal: 0, rack };
        }
        let settings = Settings {
            replicas: 1,
            clients: 1,
            cells: 1,
        };
        let rack = fresh(settings);
        Made {
            refusal: Refusal::SizeOutOfRange as u8,
            rack,
        }
    }
}
