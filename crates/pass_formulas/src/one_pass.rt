// A formula of a text read in one pass, by functions that call on each other. Each call stands at a later byte than its caller's, or at the same byte and
// nearer to a formula. `left` is how many levels of terms may still be opened.
ghost use Rattle.std.specs.Prelude.{IfSome, ◌≡◌, List, ◌∷◌, ◌≤◌, length};
ghost use Rattle.bundle.specs.Words.{largest_word};
ghost use Rattle.logic.specs.Named.{binder_in};
ghost use Rattle.grammar.specs.Bytes.{Word, letting};
ghost use Rattle.grammar.specs.Grammar.{Lexeme, opens, word};
ghost use Rattle.lexing.specs.Lexes.{lexemes_of};
ghost use Rattle.pass_formulas.specs.PassGives.{SymbolIs};
ghost use Rattle.pass_formulas.specs.Passes.{Passes, PassesUnder, PassesBound};

use bundle::Bundle;
use filing::Filed;
use logic::kinds::Binder;
use pass_terms::ends::{apply, closed_truth, name_pair, place_alone, place_bound, place_named};
use pass_terms::places::{bound_in, head_in, sorted_in, word_in};
use pass_terms::sorts::{equal_on, is_new};
use pass_terms::stack::Stack;
use pass_tokens::{Meaning, Text};
use scratch::pairs::half;

// What the cycle hands on: the declarations, what is left of the text, and the terms that wait for the formula that they are parts of. The records are
// no part of it: tried, and the proof did not close, as the borrow checker does not cover the call of `formula` in `pass_text` then.
#[derive(Drop)]
pub struct Pass<'p, 'b, 't> {
    pub bundle: &'p Bundle<'b>,
    pub text: Text<'t>,
    pub stack: Stack,
}

impl<'p, 'b, 't> Pass<'p, 'b, 't> {
    // The formula that stands next.
    #[cycle(pass)]
    pub fn formula(&mut self, filed: &mut Filed<'_>, left: usize) -> Option<()>
        ensures same { self.new.bundle.now ≡ self.old.bundle.now }
        ensures gives { IfSome result (λ _. Passes self.old filed.old (lexemes_of self.old.text) self.new filed.new) }
    {
        if self.text.first() == b'(' {
            self.text.skip();
            return self.bracketed(filed, left);
        }
        let meaning = word_in(self.bundle, &mut self.text)?;
        place_alone(self.bundle, filed, &mut self.stack, meaning)
    }

    // The formula whose opening bracket has been read.
    #[cycle(pass)]
    fn bracketed(&mut self, filed: &mut Filed<'_>, left: usize) -> Option<()>
        ensures same { self.new.bundle.now ≡ self.old.bundle.now }
        ensures gives { IfSome result (λ _. Passes self.old filed.old (opens ∷ lexemes_of self.old.text) self.new filed.new) }
    {
        if left == 0 {
            return None;
        }
        match head_in(self.bundle, &mut self.text)? {
            Meaning::Symbol(f) => self.applied(filed, left - 1, f),
            Meaning::Binder(q) => self.quantified(filed, left, q),
            Meaning::Let => self.local(filed, left - 1),
            Meaning::Variable(_) | Meaning::Sort(_) => None,
        }
    }

    // The arguments of a symbol, up to their closing bracket.
    #[cycle(pass)]
    fn applied(&mut self, filed: &mut Filed<'_>, left: usize, symbol: usize) -> Option<()>
        requires { symbol ≤ largest_word }
        ensures same { self.new.bundle.now ≡ self.old.bundle.now }
        ensures gives { (w : Word) → SymbolIs self.old.bundle.now w symbol
            → IfSome result (λ _. Passes self.old filed.old (opens ∷ word w ∷ lexemes_of self.old.text) self.new filed.new) }
    {
        let height = self.stack.height();
        self.text.skip_blanks();
        // No `for`: a turn reads a formula and goes on behind it.
        while self.text.first() != b')' {
            self.formula(filed, left)?;
            self.text.skip_blanks();
        }
        self.text.skip();
        let arguments = self.stack.above(height);
        if arguments.len() == 0 {
            return None;
        }
        let first = half(arguments[0], false);
        if first > 1 {
            return None;
        }
        apply(
            self.bundle,
            filed,
            &mut self.stack,
            equal_on(symbol, first),
            height,
        )
    }

    // The variables of a quantifier, its body and its closing bracket.
    #[cycle(pass)]
    fn quantified(&mut self, filed: &mut Filed<'_>, left: usize, q: Binder) -> Option<()>
        ensures same { self.new.bundle.now ≡ self.old.bundle.now }
        ensures gives { IfSome result (λ _. PassesUnder self.old filed.old (binder_in q) self.new filed.new) }
    {
        self.text.skip_blanks();
        if self.text.first() == b')' {
            self.text.skip();
            self.text.skip_blanks();
            self.formula(filed, left)?;
            return closed_truth(&mut self.text, &self.stack);
        }
        if left == 0 {
            return None;
        }
        let x = sorted_in(self.bundle, &mut self.text)?;
        self.quantified(filed, left - 1, q)?;
        place_bound(filed, &mut self.stack, q, x)
    }

    // A pair of a let, whose variable is not among those of the pairs above a height.
    #[cycle(pass)]
    fn bound(&mut self, filed: &mut Filed<'_>, height: usize, left: usize) -> Option<()>
        requires { height ≤ length self.old.stack }
        ensures same { self.new.bundle.now ≡ self.old.bundle.now }
        ensures gives { IfSome result (λ _. PassesBound self.old filed.old height self.new filed.new) }
    {
        let x = bound_in(self.bundle, &mut self.text)?;
        if !is_new(self.stack.above(height), x) {
            return None;
        }
        self.formula(filed, left)?;
        name_pair(self.bundle, &mut self.text, &mut self.stack, x)
    }

    // The pairs of a let, its body and its closing bracket.
    #[cycle(pass)]
    fn local(&mut self, filed: &mut Filed<'_>, left: usize) -> Option<()>
        ensures same { self.new.bundle.now ≡ self.old.bundle.now }
        ensures gives { (ls : List Lexeme) → lexemes_of self.old.text ≡ opens ∷ ls
            → IfSome result (λ _. Passes self.old filed.old (opens ∷ word letting ∷ opens ∷ lexemes_of self.old.text) self.new filed.new) }
    {
        let height = self.stack.height();
        self.text.skip_blanks();
        // No `for`: a turn reads a pair and goes on behind it.
        while self.text.first() != b')' {
            self.bound(filed, height, left)?;
            self.text.skip_blanks();
        }
        self.text.skip();
        self.text.skip_blanks();
        self.formula(filed, left)?;
        place_named(&mut self.text, filed, &mut self.stack, height)
    }
}
