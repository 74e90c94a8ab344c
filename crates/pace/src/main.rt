// The pace of single events: reads how many from standard input, a seven-bit number, does as many by `schedule::step`, each a call of its own on a rack of
// 5 replicas, and writes how many were done. `compare/bench/run racks` times it.
#![tactic(auto)]

use rack::Rack;

// An ask to every replica, then by turns: the message in slot 0 is copied, and the copy is lost.
fn done_of(times: u32) -> u64 {
    let made = Rack::made(5, 4, 4);
    let started = schedule::step(made.rack, 0, 0, 0, 0);
    let mut rack = started.rack;
    let mut done = 0u64;
    for i in 0..times {
        let ran = schedule::step(rack, 4 - i % 2, 5 * (i % 2), 0, 0);
        rack = ran.rack;
        if ran.refusal == 0 {
            done += 1;
        }
    }
    done
}

fn main(rt: HostRuntime) {
    let mut bytes = [0u8; 5];
    let n = input::fill(&mut rt.stdin(), &mut bytes).count;
    match number::read_number(&bytes[..n], 0) {
        Ok((times, _)) => {
            let _ = rt.print(done_of(times));
            let _ = rt.write_all(b" events done\n");
        }
        Err(k) => {
            let _ = rt.write_all(b"refused ");
            let _ = rt.print(k.number());
            let _ = rt.write_all(b"\n");
        }
    }
}
