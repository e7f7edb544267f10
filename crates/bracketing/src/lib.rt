// Sorts of a text judged bracket by bracket, by loops alone: for texts that are nested deeper than the reader's recursion goes.
#![tactic(auto)]

pub mod brackets; // brackets.rt: what follows a bracket and a name, what follows a formula
pub mod sorts; // sorts.rt: what a word names, the sort of the formula at the front
