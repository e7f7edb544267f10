// The tests of the nodes of a text, and of all of them, one after another: whether its formula is well sorted and Bool, with no stack.
#![tactic(auto)]

pub mod arguments; // arguments.rt: words alone, and symbols with their arguments
pub mod heads; // heads.rt: connectives, quantifiers, lets
pub mod nodes; // nodes.rt: every node, and the whole text
