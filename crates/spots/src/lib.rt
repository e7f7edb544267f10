// Types of the scan of a text. What may follow where, and the laws that the code of crate scanning rests on, are in specs/ and proofs/.
// A spot is a number: its row in the table of what may follow where. The second scan has a row more, 20, for a spot that is not known.
#![tactic(auto)]

// Where a scan stands: its spot, and how many spots the area holds for the last open brackets; `base` brackets are around these.
#[derive(Clone, Copy)]
pub struct Place {
    pub spot: usize,
    pub height: usize,
    pub base: usize,
}

// What a lexeme gives: the first byte of the next one, and the place after it.
#[derive(Clone, Copy)]
pub struct Turn {
    pub next: usize,
    pub place: Place,
}

// Where the second scan stands: the first byte of the next lexeme, how many brackets are open, and what it takes the spot for.
#[derive(Clone, Copy)]
pub struct Guess {
    pub next: usize,
    pub depth: usize,
    pub spot: u8,
}
