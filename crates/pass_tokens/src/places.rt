// Variables as they stand in lists.
ghost use Rattle.std.specs.Prelude.{IfSome, ◌≤◌};
ghost use Rattle.bundle.specs.Limits.{limits};
ghost use Rattle.pass_tokens.specs.Tokens.{SortedTo, BoundTo};

use super::{Meaning, Sorted, Text};

impl<'a> Text<'a> {
    // A variable with its sort, in brackets, as a quantifier lists it.
    pub fn sorted(&mut self, symbols: usize, variables: usize) -> Option<Sorted>
        requires { (symbols ≤ limits.symbols) × (variables ≤ limits.variables) }
        ensures { IfSome result (SortedTo variables self.old self.new) }
    {
        let variable = self.bound(symbols, variables)?;
        let Meaning::Sort(sort) = self.word(symbols, variables)? else {
            return None;
        };
        self.close()?;
        Some(Sorted { variable, sort })
    }

    // The opening bracket and the variable of a let's pair, and the white space and comments after it.
    pub fn bound(&mut self, symbols: usize, variables: usize) -> Option<usize>
        requires { (symbols ≤ limits.symbols) × (variables ≤ limits.variables) }
        ensures { IfSome result (BoundTo variables self.old self.new) }
    {
        self.open()?;
        let Meaning::Variable(variable) = self.word(symbols, variables)? else {
            return None;
        };
        self.skip_blanks();
        Some(variable)
    }
}
