// Whether a rack is sound, part by part.
#![tactic(auto)]

ghost use Rattle.std.specs.Prelude.{◌≡◌, true, ◌<◌, ◌≤◌};
ghost use Rattle.record.specs.Entry.{client_limit, cell_limit};
ghost use Rattle.rack.specs.Places.{replica_limit, pair_at};
ghost use Rattle.rack.specs.Sound.{all_below, settings_fit, pair_fits, body_fits, message_fits, held_fits, quorums_of, holding_fits, phase_fits, operation_fits, work_fits};
ghost use Rattle.rack.specs.Sound.{wire_fits, pairs_fit, parties_fit, record_fits, sound_of};

use method::{Body, Message, Operation, Phase};
use quorum::{Quorums, Set};
use rack::maker::sizes_in;
use rack::owed::owed_by_all;
use rack::{Rack, Settings};
use record::Cell;
use stamps::Pair;

fn settings_fit(settings: Settings) -> bool
    ensures { result ≡ settings_fit settings }
{
    sizes_in(
        u32::from(settings.replicas),
        u32::from(settings.clients),
        u32::from(settings.cells),
    )
}

// A pair names a rank that the rack has.
#[tactic(auto, unfolding(rack::specs::Sound::pair_fits))]
fn pair_fits(settings: Settings, pair: Pair) -> bool
    ensures { result ≡ pair_fits settings pair }
{
    pair.stamp.rank < settings.clients
}

#[tactic(auto, unfolding(rack::specs::Sound::body_fits))]
fn body_fits(settings: Settings, body: Body) -> bool
    ensures { result ≡ body_fits settings body }
{
    match body {
        Body::Ask | Body::Kept => true,
        Body::Tell(pair) | Body::Keep(pair) => pair_fits(settings, pair),
    }
}

// A message names a client, a replica, a cell and a rank that the rack has.
#[tactic(auto, unfolding(rack::specs::Sound::message_fits))]
fn message_fits(settings: Settings, m: Message) -> bool
    ensures { result ≡ message_fits settings m }
{
    m.client.0 < settings.clients
        && m.replica.0 < settings.replicas
        && m.cell.0 < settings.cells
        && body_fits(settings, m.body)
}

#[tactic(auto, unfolding(rack::specs::Sound::held_fits))]
fn held_fits(settings: Settings, held: Option<Message>) -> bool
    ensures { result ≡ held_fits settings held }
{
    held.is_none_or(|m| message_fits(settings, m))
}

// In the ask phase nothing is held while nobody has told, and then a pair that names a rank that the rack has.
#[tactic(auto, unfolding(rack::specs::Sound::holding_fits))]
fn holding_fits(settings: Settings, set: Set, held: Option<Pair>) -> bool
    ensures { result ≡ holding_fits settings set held }
{
    match held {
        None => set == 0,
        Some(pair) => set != 0 && pair_fits(settings, pair),
    }
}

// The quorums that these settings give.
fn quorums_of(settings: Settings) -> Quorums
    ensures { result ≡ quorums_of settings }
{
    Quorums {
        replicas: settings.replicas,
    }
}

// What is held fits, and the set isn't enough to end the phase.
#[tactic(auto, unfolding(rack::specs::Sound::phase_fits))]
fn phase_fits(settings: Settings, set: Set, phase: Phase) -> bool
    ensures { result ≡ phase_fits settings set phase }
{
    let quorums = quorums_of(settings);
    match phase {
        Phase::Asking(held) => {
            holding_fits(settings, set, held) && !quorum::asks_enough(quorums, set)
        }
        Phase::Keeping(held) => { pair_fits(settings, held) && !quorum::keeps_enough(quorums, set) }
    }
}

// An open operation's cell is of this rack, its set has no replica that isn't there, and its phase fits.
#[tactic(auto, unfolding(rack::specs::Sound::operation_fits))]
fn operation_fits(settings: Settings, operation: Operation) -> bool
    ensures { result ≡ operation_fits settings operation }
{
    operation.cell.0 < settings.cells
        && quorum::within(settings.replicas, operation.set)
        && phase_fits(settings, operation.set, operation.phase)
}

// A client without an open operation fits.
#[tactic(auto, unfolding(rack::specs::Sound::work_fits))]
fn work_fits(settings: Settings, work: Option<Operation>) -> bool
    ensures { result ≡ work_fits settings work }
{
    work.is_none_or(|operation| operation_fits(settings, operation))
}

// Every message on the wire.
fn wire_fits(rack: &Rack) -> bool
    ensures { result ≡ wire_fits rack.now }
{
    rack.wire
        .iter()
        .all(|slot| held_fits(rack.settings, slot.held))
}

// A replica's pair for every cell.
fn replica_fits(rack: &Rack, k: usize) -> bool
    requires { (k < replica_limit) × (rack.now.settings.cells ≤ cell_limit) }
    ensures { result ≡ all_below rack.now.settings.cells (λ x. pair_fits rack.now.settings (pair_at rack.now k x)) }
{
    (0..usize::from(rack.settings.cells)).all(|x| pair_fits(
        rack.settings,
        rack.pairs[Cell::LIMIT * k + x],
    ))
}

// Every replica's pair for every cell.
fn pairs_fit(rack: &Rack) -> bool
    requires { (rack.now.settings.replicas ≤ replica_limit) × (rack.now.settings.cells ≤ cell_limit) }
    ensures { result ≡ pairs_fit rack.now }
{
    (0..usize::from(rack.settings.replicas)).all(|k| replica_fits(rack, k))
}

// Every client's open operation.
fn parties_fit(rack: &Rack) -> bool
    requires { rack.now.settings.clients ≤ client_limit }
    ensures { result ≡ parties_fit rack.now }
{
    (0..usize::from(rack.settings.clients)).all(|i| work_fits(rack.settings, rack.parties[i].work))
}

// Entries and answers owed don't exceed what a record holds.
#[tactic(auto, unfolding(rack::specs::Sound::record_fits, rack::specs::Sound::owed))]
fn record_fits(rack: &Rack) -> bool
    ensures { result ≡ record_fits rack.now }
{
    rack.count <= Rack::ENTRIES
        && rack.count + owed_by_all(rack.parties, rack.settings.clients) <= Rack::ENTRIES
}

// Whether a rack whose settings fit is sound.
#[tactic(auto, unfolding(rack::specs::Sound::sound_of))]
fn parts_fit(rack: &Rack) -> bool
    requires { settings_fit rack.now.settings ≡ true }
    ensures { result ≡ sound_of rack.now }
{
    wire_fits(rack) && pairs_fit(rack) && parties_fit(rack) && record_fits(rack)
}

// Whether the rack is sound: an event on one that isn't is refused 2.
#[tactic(auto, unfolding(rack::specs::Sound::sound_of))]
pub fn sound(rack: Rack) -> bool
    ensures { result ≡ sound_of rack }
{
    settings_fit(rack.settings) && parts_fit(&rack)
}
