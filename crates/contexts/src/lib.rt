// The checks 10 and 11, on the lent file in place and on the free sets in lent words.
#![tactic(auto)]

pub mod contexts; // contexts.rt: 10 and 11
