// The answers that clients owe.
ghost use Rattle.std.specs.Prelude.{◌≡◌, ◌≤◌};
ghost use Rattle.rack.specs.Sound.{owed_in, owed_by};

use method::Party;
use record::Client;

// What a client owes: an answer, if it has an operation open and isn't stopped.
#[tactic(auto, unfolding(crate::specs::Sound::owed_by, crate::specs::Sound::owes))]
pub fn owed_by(party: Party) -> usize
    ensures { (result ≡ owed_by party) × (result ≤ 1) }
{
    usize::from(!party.stopped && party.work.is_some())
}

// Answers owed: one for each open operation of a client not stopped.
pub fn owed_by_all(parties: [Party; Client::LIMIT], clients: u8) -> usize
    ensures { result ≡ owed_in clients parties }
{
    let n = usize::from(clients).min(Client::LIMIT);
    let mut owed = 0;
    for party in &parties[..n] {
        owed += owed_by(*party);
    }
    owed
}
