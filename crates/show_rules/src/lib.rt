// For the program show: what a refusal by 13, 14 or 21 means, and which variable is stray in one by 22.
#![tactic(auto)]

pub mod failures; // failures.rt: steps that are no instance of their rule, sides that fail, walks that are too long
pub mod skolem; // skolem.rt: what a step by SKO lacks
pub mod chains; // chains.rt: the entries of a context, up to the empty one
pub mod strays; // strays.rt: variables that no entry mentions
