// What every run from a fresh rack keeps: its record is lawful. specs/ has the theorem; this is the code that it speaks of.
#![tactic(auto)]

ghost use Rattle.std.specs.Prelude.{◌≡◌};
ghost use Rattle.rack.specs.Places.{of_sizes};
ghost use Rattle.law.specs.Operation.{operations};
ghost use Rattle.law.specs.Order.{Lawful};
ghost use Rattle.rack.specs.Places.{record_of};
ghost use Rattle.rack.specs.Run.{made_of, run_of};

use rack::{Rack, Ran};
use schedule::run;

// A schedule on the fresh rack of these sizes, or of sizes 1, 1, 1 where one is out of range: the record that it leaves is lawful.
pub fn run_fresh(replicas: u32, clients: u32, cells: u32, allowance: usize, events: &[u32]) -> Ran
    ensures value { result ≡ run_of (made_of (of_sizes replicas clients cells)).rack allowance events.now }
    ensures lawful { Lawful (operations (record_of result.rack)) }
{
    let made = Rack::made(replicas, clients, cells);
    run(made.rack, allowance, events)
}
