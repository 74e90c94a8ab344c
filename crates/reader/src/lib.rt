// Reading a record: one entry at a place of the bytes, the reading head, and how many entries there are.
#![tactic(auto)]

ghost use Rattle.std.specs.Prelude.{◌≡◌};
ghost use Rattle.number.specs.Number.{number_at};
ghost use Rattle.record.specs.Entry.{up_to, fields_at, entry_at};
ghost use Rattle.record.specs.Record.{bytes_held, survey_of};
ghost use Rattle.reader.specs.Head.{under_head, place_after, head_after};
ghost use Rattle.reader.specs.laws.Survey.{begun, goes_on, stopped, after_found, answer_of};

use number::Number;
use record::{Answer, Cell, Client, ENTRY_LIMIT, Entry, Found, Standing};
use refusal::Refusal;

// The reading head: the record's bytes and its place in them.
#[derive(Clone, Copy)]
pub struct ReadingHead<'a> {
    pub bytes: &'a [u8],
    pub place: usize,
}

// A number that may not be above the limit.
#[tactic(auto, unfolding(record::specs::Entry::up_to))]
fn read_up_to(s: &[u8], at: usize, limit: u32, refusal: Refusal) -> Number
    ensures { result ≡ up_to limit refusal (number_at s.now at) }
{
    let (n, next) = number::read_number(s, at)?;
    if limit < n {
        return Err(refusal);
    }
    Ok((n, next))
}

// What follows an entry's kind and client.
fn read_fields(s: &[u8], at: usize, kind: u32, client: Client) -> Found
    ensures { result ≡ fields_at s.now at kind client.0 }
{
    if kind == 3 {
        return Ok((Entry::Done(client), at));
    }
    if kind == 2 {
        let (v, next) = number::read_number(s, at)?;
        return Ok((Entry::Told(client, number::signed(v)), next));
    }
    let (cell, next) = read_up_to(s, at, Cell::LAST, Refusal::FieldAbove)?;
    let cell = Cell(cell as u8);
    if kind == 0 {
        return Ok((Entry::ReadAsked(client, cell), next));
    }
    let (v, last) = number::read_number(s, next)?;
    Ok((Entry::WriteAsked(client, cell, number::signed(v)), last))
}

// The entry at a place of the bytes.
fn read_entry(s: &[u8], at: usize) -> Found
    ensures { result ≡ entry_at s.now at }
{
    let (kind, next) = read_up_to(s, at, 3, Refusal::KindAbove)?;
    let (client, more) = read_up_to(s, next, Client::LAST, Refusal::FieldAbove)?;
    read_fields(s, more, kind, Client(client as u8))
}

// The place after what was found; a fault leaves the place as it is.
#[tactic(auto, unfolding(crate::specs::Head::place_after))]
fn place_after(found: Found, place: usize) -> usize
    ensures { result ≡ place_after found place }
{
    match found {
        Ok((_, next)) => next,
        Err(_) => place,
    }
}

impl<'a> ReadingHead<'a> {
    // Takes the entry at the head's place, and moves on to the place after it.
    pub fn take<'s>(&'s mut self) -> Found
        ensures { (result ≡ under_head self.old) × (self.new ≡ head_after self.old) }
    {
        let place = self.place;
        let found = read_entry(self.bytes, place);
        self.place = place_after(found, place);
        found
    }
}

// The entry at a place of the bytes, taken by a reading head. Its parameters are plain, so whoever calls it needs no head.
pub fn entry_at(s: &[u8], at: usize) -> Found
    ensures { result ≡ entry_at s.now at }
{
    let mut head = ReadingHead {
        bytes: s,
        place: at,
    };
    head.take()
}

// How far a survey has come: what each client has open, how many entries were taken, and what stopped it, if anything did.
#[derive(Clone, Copy)]
struct Progress {
    standing: Standing,
    taken: usize,
    fault: Option<Refusal>,
}

// Before the first entry.
fn begun() -> Progress
    ensures { result ≡ begun }
{
    Progress {
        standing: Standing::fresh(),
        taken: 0,
        fault: None,
    }
}

// Whether an entry is due, at a place of so many bytes.
#[tactic(auto, unfolding(crate::specs::laws::Survey::goes_on))]
fn goes_on(progress: Progress, place: usize, length: usize) -> bool
    ensures { result ≡ goes_on progress place length }
{
    progress.fault.is_none() && place < length
}

// Stopped where the next entry is due.
fn stopped(progress: Progress, fault: Refusal) -> Progress
    ensures { result ≡ stopped progress fault }
{
    Progress {
        fault: Some(fault),
        ..progress
    }
}

// After what was found where an entry is due.
fn after(progress: Progress, found: Found) -> Progress
    ensures { result ≡ after_found progress found }
{
    if ENTRY_LIMIT <= progress.taken {
        return stopped(progress, Refusal::TooMany);
    }
    match found {
        Err(fault) => stopped(progress, fault),
        Ok((e, _)) => match progress.standing.fault(e) {
            Some(fault) => stopped(progress, fault),
            None => Progress {
                standing: progress.standing.after(e),
                taken: progress.taken + 1,
                fault: None,
            },
        },
    }
}

// How many entries were taken, or what stopped the survey.
#[tactic(auto, unfolding(crate::specs::laws::Survey::all_or))]
fn answer_of(progress: Progress) -> Answer
    ensures { result ≡ answer_of progress }
{
    match progress.fault {
        None => Ok(progress.taken),
        Some(fault) => Err((fault, progress.taken)),
    }
}

// How many entries the bytes hold, or the first fault. One head takes them all.
pub fn survey(s: &[u8]) -> Answer
    ensures { result ≡ survey_of (bytes_held s.now) }
{
    let mut head = ReadingHead { bytes: s, place: 0 };
    let mut progress = begun();
    while goes_on(progress, head.place, s.len()) {
        let found = head.take();
        progress = after(progress, found);
    }
    answer_of(progress)
}
