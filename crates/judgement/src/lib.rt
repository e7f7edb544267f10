// What is said of an accepted file, as a type: what `check` answers to every file is in specs/, with the demands and their proofs.
#![tactic(auto)]

// What is said of a file that is accepted: the claim, by its two term numbers, and the number of pairs of the last REFL walked, 0 if none was: no `Option`,
// since other languages are told so, and a walk visits one pair at least.
#[derive(Clone, Copy)]
pub struct Acceptance {
    pub left: usize,
    pub right: usize,
    pub pairs: usize,
}
