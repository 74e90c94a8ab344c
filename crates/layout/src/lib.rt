// What a call on a rack in lent memory answers. Which word is what, the rack of words and the words of a rack are defined in specs/; no function is needed.
#![tactic(auto)]

// How many events were done, and the refusal, 0 for none.
#[derive(Clone, Copy)]
pub struct WordsAnswer {
    pub done: usize,
    pub refusal: u8,
}
