// The judge: reads a record from standard input, and writes its verdict as one line.
#![tactic(auto)]

use input::Ending;
use record::LONGEST_RECORD;

// So many bytes of any input decide: those of the longest record, and one more.
const DECIDES: usize = LONGEST_RECORD + 1;

// Writes the line of the verdict on a record's bytes.
fn say(out: &impl Print, bytes: &[u8]) {
    let mut line = [0u8; report::LINE_ROOM];
    let n = report::report(verdict::judge(bytes), &mut line);
    let _ = out.write_all(&line[..n]);
}

// What is left of an input that is too long is read after the verdict is written: nothing of it can change the verdict.
fn main(rt: HostRuntime) {
    let mut bytes = [0u8; DECIDES];
    input::answer(&mut rt.stdin(), &mut bytes, |read, ending| match ending {
        // A part of a record is not judged: it may be lawful where the whole isn't.
        Ending::Failed => {
            let _ = rt.write_all(b"input can't be read to its end\n");
        }
        Ending::Ended | Ending::Full => say(&rt, read),
    });
}
