// For the program show: where the walk of a REFL ends, and why.
#![tactic(auto)]

pub mod area; // area.rt: the free sets of all terms
pub mod sentences; // sentences.rt: what is said of a walk
pub mod walk; // walk.rt: the walk, to the first difference
