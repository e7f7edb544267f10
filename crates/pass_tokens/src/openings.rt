// Heads of formulas.
ghost use Rattle.std.specs.Prelude.{IfSome, ◌≤◌};
ghost use Rattle.bundle.specs.Limits.{limits};
ghost use Rattle.pass_tokens.specs.Tokens.{HeadTo};

use super::{Meaning, Text};

impl<'a> Text<'a> {
    // The head of a formula after its opening bracket: a symbol; or a binder or let with the opening bracket of its list, in which another one
    // follows.
    pub fn head(&mut self, symbols: usize, variables: usize) -> Option<Meaning>
        requires { (symbols ≤ limits.symbols) × (variables ≤ limits.variables) }
        ensures { IfSome result (HeadTo symbols self.old self.new) }
    {
        self.skip_blanks();
        let head = self.word(symbols, variables)?;
        match head {
            Meaning::Symbol(_) => Some(head),
            Meaning::Binder(_) | Meaning::Let => {
                self.skip_blanks();
                self.open()?;
                if self.first() != b'(' {
                    return None;
                }
                Some(head)
            }
            Meaning::Variable(_) | Meaning::Sort(_) => None,
        }
    }
}
