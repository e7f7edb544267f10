// The rules by name, with the numbers that steps have for them.
ghost use Rattle.std.specs.Prelude.{◌≡◌, [], ◌∷◌, map};
ghost use Rattle.logic.specs.Rules.{rule_number, rule_of, REFL, CONG, TRANS, BIND, LET, SKO_EXISTS, SKO_FOR_ALL};
ghost use Rattle.logic.specs.Named.{rule_in, rule_named};

#[derive(Clone, Copy, Debug, PartialEq, Eq)]
pub enum Rule {
    Refl,
    Cong,
    Trans,
    Bind,
    Let,
    SkoExists,
    SkoForAll,
}

impl Rule {
    // How many numbers stand for rules, from 1 on.
    pub const COUNT: usize = 7;

    // Ties their count to the rules in specs/.
    #[tactic(auto, unfolding(crate::specs::Rules::rule_of))]
    fn numbers() -> [usize; Rule::COUNT]
        ensures { map rule_of result ≡ REFL ∷ CONG ∷ TRANS ∷ BIND ∷ LET ∷ SKO_EXISTS ∷ SKO_FOR_ALL ∷ [] }
    {
        [1, 2, 3, 4, 5, 6, 7]
    }

    // The rule that a number stands for.
    #[tactic(auto, unfolding(crate::specs::Rules::rule_of))]
    pub fn of(number: usize) -> Option<Rule>
        ensures { rule_of number ≡ rule_named result }
    {
        match number {
            1 => Some(Rule::Refl),
            2 => Some(Rule::Cong),
            3 => Some(Rule::Trans),
            4 => Some(Rule::Bind),
            5 => Some(Rule::Let),
            6 => Some(Rule::SkoExists),
            7 => Some(Rule::SkoForAll),
            _ => None,
        }
    }

    // Its number.
    pub fn number(self) -> usize
        ensures { result ≡ rule_number (rule_in self) }
    {
        match self {
            Rule::Refl => 1,
            Rule::Cong => 2,
            Rule::Trans => 3,
            Rule::Bind => 4,
            Rule::Let => 5,
            Rule::SkoExists => 6,
            Rule::SkoForAll => 7,
        }
    }
}
