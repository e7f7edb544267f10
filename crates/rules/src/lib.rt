// The rules as tests on a step's words, over what lent memory holds.
#![tactic(auto)]

pub mod rules; // rules.rt: REFL, CONG, TRANS, BIND, LET
pub mod skolem; // skolem.rt: SKO

// What a step's walk takes beside its premises: the context in which they carry the terms of one list to those of another, and whether one more is left
// over for a let's body. `body` says no more than that: the three numbers are there in either case.
#[derive(Clone, Copy)]
pub struct Lists {
    pub body: bool,
    pub context: usize,
    pub lefts: usize,
    pub rights: usize,
}
