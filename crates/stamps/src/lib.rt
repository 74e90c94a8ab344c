// Stamps, and the pairs of a stamp and a value: which stamp is the lesser, what a pair becomes when another comes, and the pair that all starts from.
#![tactic(auto)]

ghost use Rattle.std.specs.Prelude.{◌≡◌};
ghost use Rattle.stamps.specs.Stamp.{stamp_less, raised, fresh_pair};

// Stamps compare by number, then rank, in the order of the fields; a rank is the number of the client that chose the stamp.
#[derive(Clone, Copy, PartialEq, Eq, PartialOrd, Ord)]
pub struct Stamp {
    pub number: u32,
    pub rank: u8,
}

impl Stamp {
    // The greatest number: no stamp of a greater one follows.
    pub const LAST: u32 = u32::MAX;
}

// What a replica keeps for one cell.
#[derive(Clone, Copy, PartialEq, Eq)]
pub struct Pair {
    pub value: i32,
    pub stamp: Stamp,
}

// Whether s is the lesser stamp: by number, then rank.
#[tactic(auto, unfolding(crate::specs::Stamp::stamp_less))]
pub fn less(s: Stamp, t: Stamp) -> bool
    ensures { result ≡ stamp_less s t }
{
    s < t
}

// The pair of the greater stamp; the first, where the two stamps are the same.
#[tactic(auto, unfolding(crate::specs::Stamp::raised))]
fn greater(pair: Pair, other: Pair) -> Pair
    ensures { result ≡ raised pair other }
{
    if less(pair.stamp, other.stamp) {
        return other;
    }
    pair
}

// A lent pair is raised where it stands: stamp and value are taken if the stamp is greater than its own.
pub fn raise_in_place(own: &mut Pair, other: Pair)
    ensures { own.new ≡ raised own.old other }
{
    *own = greater(*own, other);
}

// The same with plain parameters, so that whoever calls it lends nothing.
pub fn raise(pair: Pair, other: Pair) -> Pair
    ensures { result ≡ raised pair other }
{
    let mut own = pair;
    raise_in_place(&mut own, other);
    own
}

// Stamp (0, 0) with value 0.
pub fn fresh_pair() -> Pair
    ensures { result ≡ fresh_pair }
{
    let stamp = Stamp { number: 0, rank: 0 };
    Pair { stamp, value: 0 }
}
