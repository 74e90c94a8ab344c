// The replicas that have answered: a set, one bit each, and the ones are counted.
#![tactic(auto)]

ghost use Rattle.std.specs.Prelude.{◌≡◌, ◌≤◌, ◌<◌};
ghost use Rattle.quorum.specs.Sets.{set_bits, has_replica, with_replica, count_of, asks_enough, keeps_enough, every_replica, others, within, without_replica, majority, lowest_of};
ghost use Rattle.quorum.specs.Sets.{rest_of};

use record::Replica;

// What a rack's quorums follow from: how many replicas it has. More than half of them are enough, in either phase.
#[derive(Clone, Copy)]
pub struct Quorums {
    pub replicas: u8,
}

// A set of replicas, a bit each, and how many it has bits for.
pub type Set = u16;

pub const SET_BITS: u8 = 16;

// The set of replica 0 alone.
const FIRST: Set = 1;

// Whether replica k has answered.
pub fn has(set: Set, k: Replica) -> bool
    ensures { result ≡ has_replica set k.0 }
{
    k.0 < SET_BITS && (set >> k.0) % 2 == 1
}

// The set with replica k.
pub fn with(set: Set, k: Replica) -> Set
    ensures { result ≡ with_replica set k.0 }
{
    if SET_BITS <= k.0 {
        return set;
    }
    set | (FIRST << k.0)
}

// How many replicas have answered.
pub fn count(set: Set) -> u32
    ensures { (result ≡ count_of set) × (result ≤ set_bits) }
{
    set.count_ones()
}

// The set without replica k.
pub fn without(set: Set, k: Replica) -> Set
    ensures { result ≡ without_replica set k.0 }
{
    if has(set, k) {
        return set - (FIRST << k.0);
    }
    set
}

// Whether the set is more than half of n replicas.
#[tactic(auto, unfolding(crate::specs::Sets::majority))]
fn most(n: u8, set: Set) -> bool
    ensures { result ≡ majority n set }
{
    u32::from(n) < 2 * count(set)
}

// Whether enough replicas have told.
#[tactic(auto, unfolding(crate::specs::Sets::asks_enough))]
pub fn asks_enough(quorums: Quorums, set: Set) -> bool
    ensures { result ≡ asks_enough quorums set }
{
    most(quorums.replicas, set)
}

// Whether enough replicas have kept.
#[tactic(auto, unfolding(crate::specs::Sets::keeps_enough))]
pub fn keeps_enough(quorums: Quorums, set: Set) -> bool
    ensures { result ≡ keeps_enough quorums set }
{
    most(quorums.replicas, set)
}

// Every replica of n.
pub fn every(n: u8) -> Set
    ensures { result ≡ every_replica n }
{
    if SET_BITS <= n {
        return u16::MAX;
    }
    (FIRST << n) - 1
}

// Each replica of n that is not in the set.
pub fn others(n: u8, set: Set) -> Set
    ensures { result ≡ others n set }
{
    let all = every(n);
    all - (all & set)
}

// Whether the set has no replica beyond n.
pub fn within(n: u8, set: Set) -> bool
    ensures { result ≡ within n set }
{
    SET_BITS <= n || set < (FIRST << n)
}

// The lowest replica of the set.
#[tactic(auto, unfolding(crate::specs::Sets::lowest_of, crate::specs::Sets::set_bits))]
pub fn lowest(set: Set) -> Replica
    ensures { result ≡ record { 0 = lowest_of set } }
{
    Replica(set.trailing_zeros() as u8)
}

// The set without its lowest replica.
pub fn rest(set: Set) -> Set
    ensures { result ≡ rest_of set }
{
    if set == 0 {
        return 0;
    }
    set - (FIRST << lowest(set).0)
}
