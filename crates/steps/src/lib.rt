// The checks 12, 22, 21, 13 and 14: every step of a file, or one that comes after those taken. A step's test gives the number of pairs that its walk visited,
// 0 where it was not walked; the test of all steps gives that of the last REFL walked, 0 if none was.
#![tactic(auto)]

pub mod steps; // steps.rt: the checks of a step
