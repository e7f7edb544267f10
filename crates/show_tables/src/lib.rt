// For the program show: what a refusal by 1 to 6 means, and what the sentences share.
#![tactic(auto)]

pub mod tables; // tables.rt: the file as a whole, links, symbols, variables
