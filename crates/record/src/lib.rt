// A rack's record: its entries, and what each client has open after them.
#![tactic(auto)]

ghost use Rattle.std.specs.Prelude.{◌≡◌, eqb, cond, None, Some};
ghost use Rattle.record.specs.Record.{fresh, open_by, opened, fault_after, standing_after};

use refusal::Refusal;

// A client's number, a replica's and a cell's: kinds of their own.
#[derive(Clone, Copy)]
pub struct Client(pub u8);

#[derive(Clone, Copy)]
pub struct Replica(pub u8);

#[derive(Clone, Copy)]
pub struct Cell(pub u8);

impl Client {
    // How many clients a rack has at most, and the greatest number of one.
    pub const LIMIT: usize = 8;

    pub const LAST: u32 = (Client::LIMIT - 1) as u32;
}

impl Replica {
    // How many replicas a rack has at most.
    pub const LIMIT: usize = 15;
}

impl Cell {
    // How many cells a rack has at most, and the greatest number of one.
    pub const LIMIT: usize = 16;

    pub const LAST: u32 = (Cell::LIMIT - 1) as u32;
}

// An entry of the record.
#[derive(Clone, Copy)]
pub enum Entry {
    ReadAsked(Client, Cell),
    WriteAsked(Client, Cell, i32),
    Told(Client, i32),
    Done(Client),
}

// What reading one entry gives: the entry and the place after it, or the refusal.
pub type Found = Result<(Entry, usize), Refusal>;

// What each client has open: nothing is 0, a read 1, a write 2.
#[derive(Clone, Copy)]
pub struct Standing {
    pub has: [u8; Client::LIMIT],
}

// What reading or writing a record gives: how many entries or bytes, or the refusal with its entry's number.
pub type Answer = Result<usize, (Refusal, usize)>;

// The most entries that a record holds.
pub const ENTRY_LIMIT: usize = 2048;

// The most bytes that an entry takes, one each for kind, client and cell and five for a value, and that a record takes.
pub const LONGEST_ENTRY: usize = 8;

pub const LONGEST_RECORD: usize = LONGEST_ENTRY * ENTRY_LIMIT;

impl Standing {
    // Before the first entry.
    pub fn fresh() -> Standing
        ensures { result ≡ fresh }
    {
        Standing {
            has: [0u8; Client::LIMIT],
        }
    }

    // What a client has open; one that isn't there has nothing.
    fn open_by(self, client: Client) -> u8
        ensures { result ≡ open_by self client }
    {
        self.has.get(usize::from(client.0)).copied().unwrap_or(0)
    }

    // The same with another thing open; a client that isn't there changes nothing.
    fn opened(mut self, client: Client, what: u8) -> Standing
        ensures { result ≡ opened self client what }
    {
        let at = usize::from(client.0);
        if at < Client::LIMIT {
            self.has[at] = what;
        }
        self
    }

    // The refusal of a client that must have just this open.
    fn unless_open(self, client: Client, what: u8, refusal: Refusal) -> Option<Refusal>
        ensures { result ≡ cond (eqb (open_by self client) what) None (Some refusal) }
    {
        if self.open_by(client) == what {
            None
        } else {
            Some(refusal)
        }
    }

    // Why the entry may not come now, if so.
    #[tactic(auto, unfolding(crate::specs::Record::fault_after))]
    pub fn fault(self, e: Entry) -> Option<Refusal>
        ensures { result ≡ fault_after self e }
    {
        match e {
            Entry::ReadAsked(client, _) => self.unless_open(client, 0, Refusal::AskedWhileOpen),
            Entry::WriteAsked(client, _, _) => self.unless_open(client, 0, Refusal::AskedWhileOpen),
            Entry::Told(client, _) => self.unless_open(client, 1, Refusal::EndedUnasked),
            Entry::Done(client) => self.unless_open(client, 2, Refusal::EndedUnasked),
        }
    }

    // After the entry.
    #[tactic(auto, unfolding(crate::specs::Record::standing_after))]
    pub fn after(self, e: Entry) -> Standing
        ensures { result ≡ standing_after self e }
    {
        match e {
            Entry::ReadAsked(client, _) => self.opened(client, 1),
            Entry::WriteAsked(client, _, _) => self.opened(client, 2),
            Entry::Told(client, _) | Entry::Done(client) => self.opened(client, 0),
        }
    }
}
