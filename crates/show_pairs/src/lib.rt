// For the program show: what differs at one pair of terms, where the walk of a REFL comes to it.
#![tactic(auto)]

pub mod binders; // binders.rt: what the binders crossed say of a variable
pub mod contexts; // contexts.rt: the image of a variable, from its context up
pub mod pairs; // pairs.rt: what differs at a pair
pub mod path; // path.rt: the pairs above the one that is visited
