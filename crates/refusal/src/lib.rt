// Why something is refused: the paper's numbers, each with a name of its own.
#![tactic(auto)]

ghost use Rattle.std.specs.Prelude.{◌≡◌};
ghost use Rattle.refusal.specs.Number.{paper_number};

// A refusal. 1 is the maker's, 2 to 13 are an event's, 15 is a script's, 20 to 29 are a record's.
#[derive(Clone, Copy, Debug, PartialEq, Eq)]
pub enum Refusal {
    // A size is out of range.
    SizeOutOfRange = 1,
    // The rack is unsound.
    Unsound = 2,
    // No event of the paper's kinds, or a number that is not in this rack.
    Unknown = 3,
    SlotEmpty = 4,
    ClientStopped = 5,
    // A start while an operation is open.
    AlreadyOpen = 6,
    // A resend with none open.
    NoneOpen = 7,
    ReplicaOff = 8,
    // Off when off, on when on.
    SwitchedSo = 9,
    // A start at the last operation number.
    OpSpent = 10,
    // No place for an entry and its answer beside the entries and the answers owed.
    RecordFull = 11,
    // A write's ask phase would end with the greatest number held.
    NumberSpent = 12,
    // More to send than free slots.
    WireFull = 13,
    // No code of an event, in a script.
    UnknownCode = 15,
    // What is lent is too short.
    TooShort = 20,
    // A number's bytes end first.
    EndsFirst = 21,
    // A number has several bytes and the last is 0.
    LastIsZero = 22,
    // A number's fifth byte is above 15.
    FifthAbove = 23,
    // An entry's kind is above 3.
    KindAbove = 24,
    // An entry's client is above 7, or its cell above 15.
    FieldAbove = 25,
    // Asked by a client with an operation open.
    AskedWhileOpen = 26,
    // Told or done without an open operation of that kind.
    EndedUnasked = 27,
    // Something remains after the last entry that a record holds.
    TooMany = 28,
    // A write asked with value 0, or with a value asked earlier for that cell.
    AskedAgain = 29,
}

impl Refusal {
    // Its number in the paper.
    #[tactic(auto, unfolding(crate::specs::Number::paper_number))]
    pub fn number(self) -> u8
        ensures { result ≡ paper_number self }
    {
        self as u8
    }
}
