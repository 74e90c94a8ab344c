// The drill: reads a script from standard input, runs it on the rack that it names, and writes what the run did and left.
#![tactic(auto)]

use input::Ending;

// The longest script that is taken has one byte less.
const TOO_LONG: usize = play::LONGEST + 1;

// Writes what there is to say of a script.
fn say(rt: &impl Print, script: &[u8]) {
    let mut lines = [0u8; 262144];
    let n = play::drill(script, &mut lines);
    let _ = rt.write_all(&lines[..n]);
}

// A script that fills the bytes is too long; a part of one is not run.
fn main(rt: HostRuntime) {
    let mut bytes = [0u8; TOO_LONG];
    let mut stdin = rt.stdin();
    input::answer(&mut stdin, &mut bytes, |script, ending| match ending {
        Ending::Failed => {
            let _ = rt.write_all(b"input can't be read to its end\n");
        }
        Ending::Ended => say(&rt, script),
        Ending::Full => {
            let _ = rt.write_all(b"script longer than 2097152 bytes\n");
        }
    });
}
