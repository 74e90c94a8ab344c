// A script: the bytes that say which rack is made, with what allowance, and which events are run on it.
#![tactic(auto)]

ghost use Rattle.std.specs.Prelude.{◌≡◌, [], ◌∷◌, ◌+◌, ◌≤◌, length, Ok};
ghost use Rattle.std.proofs.lemmas.List.Edits.{sets};
ghost use Rattle.script.specs.Script.{reading, cell_at, fields_at, event_at, head_of, events_from, unless_fault, script_of, Fills};

use refusal::Refusal;

// Four numbers and the place after them: the head of a script, or an event as its kind, two fields and the value as in the record. Or the refusal, and
// the byte where the number at fault begins.
pub type Words = Result<(u32, u32, u32, u32, usize), (Refusal, usize)>;

// How many events were stored, and the place after them.
#[derive(Clone, Copy)]
pub struct Filled {
    pub count: usize,
    pub next: usize,
}

// The number at a place and the place after it, or the refusal and the place itself.
fn read_at(s: &[u8], at: usize) -> Result<(u32, usize), (Refusal, usize)>
    ensures { result ≡ reading s.now at (λ n next. Ok (n, next)) }
{
    number::read_number(s, at).map_err(|k| (k, at))
}

// The four numbers that a script begins with.
pub fn read_head(s: &[u8]) -> Words
    ensures { result ≡ head_of s.now }
{
    let (replicas, a) = read_at(s, 0)?;
    let (clients, b) = read_at(s, a)?;
    let (cells, c) = read_at(s, b)?;
    let (allowance, first) = read_at(s, c)?;
    Ok((replicas, clients, cells, allowance, first))
}

// The cell of a start, and the value where it is a write.
fn read_cell(s: &[u8], at: usize, kind: u32, client: u32) -> Words
    ensures { result ≡ cell_at s.now at kind client }
{
    let (cell, next) = read_at(s, at)?;
    if kind == 0 {
        return Ok((kind, client, cell, 0, next));
    }
    let (value, last) = read_at(s, next)?;
    Ok((kind, client, cell, value, last))
}

// What follows an event's code.
fn read_fields(s: &[u8], at: usize, kind: u32) -> Words
    ensures { result ≡ fields_at s.now at kind }
{
    let (field, next) = read_at(s, at)?;
    if 1 < kind {
        return Ok((kind, field, 0, 0, next));
    }
    read_cell(s, next, kind, field)
}

// The event at a place of the bytes.
pub fn read_event(s: &[u8], at: usize) -> Words
    ensures { result ≡ event_at s.now at }
{
    let (kind, next) = read_at(s, at)?;
    if 8 < kind {
        return Err((Refusal::UnknownCode, at));
    }
    read_fields(s, next, kind)
}

// Reads the events from a place on up to the end of the bytes, or up to the first fault.
fn check_events(s: &[u8], first: usize) -> Result<(), (Refusal, usize)>
    ensures { result ≡ unless_fault (events_from s.now first) (Ok tt) }
{
    let mut at = first;
    while at < s.len() {
        let (_, _, _, _, next) = read_event(s, at)?;
        at = next;
    }
    Ok(())
}

// The head of a script and the place of its first event, or the first fault anywhere. No memory is needed, and nothing is run.
pub fn check(s: &[u8]) -> Words
    ensures { result ≡ script_of s.now }
{
    let head = read_head(s)?;
    let (_, _, _, _, first) = head;
    check_events(s, first)?;
    Ok(head)
}

// Four words, one after another.
fn put_event(words: &mut [u32], at: usize, kind: u32, a: u32, b: u32, value: u32)
    requires { at + 4 ≤ length words.old }
    ensures { words.new ≡ sets words.old at (kind ∷ a ∷ b ∷ value ∷ []) }
{
    words[at..at + 4].copy_from_slice(&[kind, a, b, value]);
}

// Stores the events from a place on, four words each, as many as the lent words take, up to the end or the first fault.
pub fn fill(s: &[u8], at: usize, words: &mut [u32]) -> Filled
    ensures { Fills s.now at words.old result words.new }
{
    let room = words.len() / 4;
    let mut next = at;
    for i in 0..room {
        if s.len() <= next {
            return Filled { count: i, next };
        }
        let Ok((kind, a, b, value, after)) = read_event(s, next) else {
            return Filled { count: i, next };
        };
        put_event(words, 4 * i, kind, a, b, value);
        next = after;
    }
    Filled { count: room, next }
}
