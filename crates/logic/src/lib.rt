// Types that the definitions and the code of the checks share. The matter of this crate is in specs/ and proofs/.
#![tactic(auto)]

ghost use Rattle.std.specs.Prelude.{◌≡◌};
ghost use Rattle.logic.specs.ReflWalk.{pair_limit};

pub mod checks; // checks.rt: the checks, and which one fails
pub mod kinds; // kinds.rt: the kinds of terms and of contexts
pub mod rules; // rules.rt: the rules

// What a walk over lists of links finds: whether they pass its test, and how many links it read, which counts also where they do not.
#[derive(Clone, Copy)]
pub struct Walk {
    pub passes: bool,
    pub links: usize,
}

// The signature of a symbol.
#[derive(Clone, Copy)]
pub enum Signature {
    // Built in: `count` arguments, each of sort `sort`, and a result of sort `result`.
    BuiltIn {
        count: usize,
        sort: usize,
        result: usize,
    },
    // Declared, by the symbol's record of this number.
    Declared(usize),
    // No symbol: 0, reserved, or not declared.
    Unknown,
}

// What one entry of a context says of a variable.
#[derive(Clone, Copy)]
pub enum Mention {
    Fixed,
    Replaced(usize),
    Absent,
}

// The image of a variable in a context: itself, or a term. No `Option`: it says what the image is, and each variable has one.
#[derive(Clone, Copy)]
pub enum Image {
    Own,
    Gives(usize),
}

// The most pairs that a walk of whole-term REFL may visit.
pub const PAIR_LIMIT: usize = 4096;

// Ties it to that in specs/.
fn pair_limit() -> usize
    ensures { result ≡ pair_limit }
{
    PAIR_LIMIT
}

// How a walk ended that may visit so many pairs and no more: with no difference, or at one, with so many pairs left; or the pairs did not suffice.
#[derive(Clone, Copy)]
pub enum Limited {
    Same(usize),
    Different(usize),
    Spent,
}
