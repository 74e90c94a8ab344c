// The recorder: reads a script from standard input, runs it on the rack that it names, and writes the bytes of the record that the run left. What there is
// to say of the run goes to standard error, so that standard output has the record and no more.
#![tactic(auto)]

use input::Ending;

// The longest script that is taken has one byte less.
const TOO_LONG: usize = play::LONGEST + 1;

// Says that a script has a fault, and where.
fn say_fault(err: &impl Print, refusal: u8, byte: usize) {
    let mut line = [0u8; 64];
    let n = show::put_fault(&mut line, 0, refusal, byte);
    let _ = err.write_all(&line[..n]);
}

// Says whether a run was refused.
fn say_refused(err: &impl Print, refusal: u8) {
    let mut line = [0u8; 64];
    let n = show::put_refused(&mut line, 0, refusal);
    let _ = err.write_all(&line[..n]);
}

// Writes the record's bytes first: what is said of the run then says too that they were written.
fn say_run(rt: HostRuntime, refusal: u8, record: &[u8]) {
    match rt.stdout().write_all(record) {
        Ok(()) => say_refused(&rt.stderr(), refusal),
        Err(_) => {
            let _ = rt.stderr().write_all(b"record can't be written\n");
        }
    }
}

// Writes the record of a script, or that it has a fault.
fn say(rt: HostRuntime, script: &[u8]) {
    let mut record = [0u8; 16384];
    match play::record_run(script, &mut record) {
        Err((refusal, byte)) => say_fault(&rt.stderr(), refusal.number(), byte),
        Ok((refusal, count)) => say_run(rt, refusal, &record[..count]),
    }
}

// A script that fills the bytes is too long; a part of one is not run.
fn main(rt: HostRuntime) {
    let mut bytes = [0u8; TOO_LONG];
    let mut stdin = rt.stdin();
    input::answer(&mut stdin, &mut bytes, |script, ending| match ending {
        Ending::Failed => {
            let _ = rt.stderr().write_all(b"input can't be read to its end\n");
        }
        Ending::Ended => say(rt, script),
        Ending::Full => {
            let _ = rt.stderr().write_all(b"script longer than 2097152 bytes\n");
        }
    });
}
