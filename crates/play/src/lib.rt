// A script played: the rack that it names is made, its events are run on it, and the lines of the run or the bytes of its record are written.
#![tactic(auto)]

ghost use Rattle.std.specs.Prelude.{◌≡◌, true};
ghost use Rattle.text.specs.Text.{Printed};
ghost use Rattle.script.specs.Script.{events_from, words_of};
ghost use Rattle.rack.specs.Sound.{sound_of};
ghost use Rattle.rack.specs.Run.{run_of};
ghost use Rattle.play.specs.Play.{played_of, drill_text, Records};

use rack::{Rack, Ran};
use refusal::Refusal;
use schedule::EVENT_WORDS;

// The most bytes of a script that the programs take.
pub const LONGEST: usize = 2097152;

// What is answered of a script's record: the refusal of its run, 0 for none, and how many bytes were written; or the refusal of its fault and the byte
// where that begins.
pub type Recorded = Result<(u8, usize), (Refusal, usize)>;

// How many events are run at a time.
const AT_A_TIME: usize = 512;

// Runs the events from a place on, so many at a time, so that a script of any length needs no more memory. Fewer done than were tried is a refusal.
fn play_events(rack: Rack, allowance: usize, s: &[u8], first: usize) -> Ran
    requires { sound_of rack ≡ true }
    ensures { result ≡ run_of rack allowance (words_of (events_from s.now first)) }
{
    let mut words = [0u32; EVENT_WORDS * AT_A_TIME];
    let mut ran = Ran {
        done: 0,
        refusal: 0,
        rack,
    };
    let mut at = first;
    while ran.done < allowance {
        let filled = script::fill(s, at, &mut words);
        if filled.count == 0 {
            return ran;
        }
        let n = (allowance - ran.done).min(filled.count);
        let part = schedule::run(ran.rack, n, &words);
        ran = Ran {
            done: ran.done + part.done,
            ..part
        };
        if part.done < n {
            return ran;
        }
        at = filled.next;
    }
    ran
}

// Makes a rack of these sizes and runs the events from place `first` of the bytes on it. Where the maker refuses, nothing is run.
#[tactic(auto, using(crate::proofs::Laws::played, crate::proofs::Laws::not_made, crate::proofs::Laws::sound_made))]
pub fn play(s: &[u8], replicas: u32, clients: u32, cells: u32, allowance: u32, first: usize) -> Ran
    ensures { result ≡ played_of s.now replicas clients cells allowance first }
{
    let made = Rack::made(replicas, clients, cells);
    if made.refusal == 0 {
        return play_events(made.rack, allowance as usize, s, first);
    }
    Ran {
        done: 0,
        refusal: made.refusal,
        rack: made.rack,
    }
}

// Writes what the program `drill` says of a script, as far as the lent bytes go; the place after it.
pub fn drill(s: &[u8], out: &mut [u8]) -> usize
    ensures { Printed out.old 0 (drill_text s.now) result out.new }
{
    match script::check(s) {
        Err((refusal, byte)) => show::put_fault(out, 0, refusal.number(), byte),
        Ok((replicas, clients, cells, allowance, first)) => show::put_ran(
            out,
            0,
            play(s, replicas, clients, cells, allowance, first),
        ),
    }
}

// Writes the bytes of the record that a script's run leaves, as far as the lent bytes go. Of a script that has a fault nothing is written.
pub fn record_run(s: &[u8], out: &mut [u8]) -> Recorded
    ensures { Records s.now out.old result out.new }
{
    let (replicas, clients, cells, allowance, first) = script::check(s)?;
    let played = play(s, replicas, clients, cells, allowance, first);
    let count = show::put_record_bytes(out, 0, played.rack);
    Ok((played.refusal, count))
}
