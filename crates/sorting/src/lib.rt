// Sorts: of symbols, of terms, and of the lists that check 8 compares; and what is noted so that no list is walked twice.
#![tactic(auto)]

pub mod sorts; // sorts.rt: signatures and sorts
pub mod notes; // notes.rt: what is noted of every list and term, for 7 to 9
pub mod sorted_bundle; // sorted_bundle.rt: a bundle with the sorts of its terms
