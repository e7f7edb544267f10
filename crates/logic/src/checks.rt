// The checks by name, in the order of their numbers; and which one fails.
ghost use Rattle.std.specs.Prelude.{◌≡◌, None, IfSome};
ghost use Rattle.logic.specs.declared.checks.Check.{Check};
ghost use Rattle.logic.specs.Failures.{check_number};

// Where a check says what is wrong, it fails at the first record of which that is true.
#[derive(Clone, Copy, Debug, PartialEq, Eq)]
pub enum Check {
    // The file's length is not that of its header and counts.
    Length,
    // Its version is not 1.
    Version,
    // A count is over its limit.
    Limits,
    // A lent area is too short.
    Area,
    // A link's next is neither 0 nor a later link.
    Next,
    // A symbol's or a variable's sorts.
    Declared,
    // A term refers to what is not there.
    Refers,
    // Counts and sorts of a term.
    Sorted,
    // A term is equal to an earlier one.
    New,
    // A context.
    Context,
    // A replacing term is not settled.
    Settled,
    // A step refers to what is not there.
    Step,
    // A step does not match its rule.
    Matches,
    // A rule's side condition.
    Side,
    // The last step is not the claim.
    Claim,
    // The derivation does not fit.
    Room,
    // The rule is not closed.
    Closed,
    // The file is no job.
    Job,
    // A text is no formula.
    Text,
    // A name is not known.
    Name,
    // A walk would visit too many pairs.
    Pairs,
    // A side has a variable that its context does not mention.
    Scope,
}

impl Check {
    // The check that has a number.
    pub fn of(number: usize) -> Option<Check>
        ensures some { IfSome result (λ c. check_number c ≡ number) }
        ensures none { result ≡ None → (c : Check) → check_number c ≡ number → ⊥ }
    {
        match number {
            1 => Some(Check::Length),
            2 => Some(Check::Version),
            3 => Some(Check::Limits),
            4 => Some(Check::Area),
            5 => Some(Check::Next),
            6 => Some(Check::Declared),
            7 => Some(Check::Refers),
            8 => Some(Check::Sorted),
            9 => Some(Check::New),
            10 => Some(Check::Context),
            11 => Some(Check::Settled),
            12 => Some(Check::Step),
            13 => Some(Check::Matches),
            14 => Some(Check::Side),
            15 => Some(Check::Claim),
            16 => Some(Check::Room),
            17 => Some(Check::Closed),
            18 => Some(Check::Job),
            19 => Some(Check::Text),
            20 => Some(Check::Name),
            21 => Some(Check::Pairs),
            22 => Some(Check::Scope),
            _ => None,
        }
    }

    // Its number.
    pub fn number(self) -> usize
        ensures { result ≡ check_number self }
    {
        match self {
            Check::Length => 1,
            Check::Version => 2,
            Check::Limits => 3,
            Check::Area => 4,
            Check::Next => 5,
            Check::Declared => 6,
            Check::Refers => 7,
            Check::Sorted => 8,
            Check::New => 9,
            Check::Context => 10,
            Check::Settled => 11,
            Check::Step => 12,
            Check::Matches => 13,
            Check::Side => 14,
            Check::Claim => 15,
            Check::Room => 16,
            Check::Closed => 17,
            Check::Job => 18,
            Check::Text => 19,
            Check::Name => 20,
            Check::Pairs => 21,
            Check::Scope => 22,
        }
    }
}

// The check that fails first, and the record; 0 where it is of no record, as C gets it.
#[derive(Clone, Copy, Debug, PartialEq, Eq)]
pub struct Failure {
    pub check: Check,
    pub record: usize,
}

// A check of the file as a whole is of no record. An impl by hand: it is what `?` asks for, and no derive makes it.
impl From<Check> for Failure {
    ghost from_gives = { λ c f. f ≡ record { check = c; «record» = 0 } };

    fn from(check: Check) -> Failure {
        Failure { record: 0, check }
    }
}
