// For the program show: what a refusal by 12 to 15, 21 or 22 means.
#![tactic(auto)]

pub mod steps; // steps.rt: steps, the claim
pub mod strays; // strays.rt: variables that no entry mentions
