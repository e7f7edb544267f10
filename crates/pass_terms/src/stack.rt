// The terms that wait for the formula that they are parts of.
ghost use Rattle.std.specs.Prelude.{IfSome, ◌≡◌, [], ◌∷◌, ◌++◌, ◌≤◌, length, take, drop};
ghost use Rattle.bundle.specs.Limits.{limits};
ghost use Rattle.pass_terms.specs.Passing.{OnTop};

use bundle::Bundle;
use std::marker::Model;

// Pairs, the lowest first: a term in the upper half, its sort in the lower or, of a let, the variable that it is bound to. As many as there may be links.
// Each is packed in one number, as the functions of placing take pairs from any stack. An `ArrayVec` of the kit for both fields was tried: 4 % more of the
// pass's instructions, 9 % where brackets nest deep, since it writes over what is taken off.
#[derive(Drop)]
pub struct Stack {
    pairs: [u64; Bundle::LINKS],
    height: usize,
}

impl Model for Stack {
    ghost use Rattle.std.specs.Prelude.{ℕ, List, ◌≤◌, take};
    ghost use Rattle.bundle.specs.Limits.{limits};

    ghost Value = { List ℕ };

    ghost view = { λ s. take s.height s.pairs };

    ghost invariant = { λ s. s.height ≤ limits.links };
}

impl Stack {
    pub fn empty() -> Stack
        ensures { result ≡ [] }
    {
        Stack {
            pairs: [0u64; Bundle::LINKS],
            height: 0,
        }
    }

    // The pairs of an array below a height.
    pub fn of(pairs: [u64; Bundle::LINKS], height: usize) -> Stack
        requires { height ≤ limits.links }
        ensures { result ≡ take height pairs }
    {
        Stack { pairs, height }
    }

    pub fn height(&self) -> usize
        ensures { result ≡ length self.now }
    {
        self.height // what lies above was taken off
    }

    // The pairs above a height.
    pub fn above(&self, height: usize) -> &[u64]
        requires { height ≤ length self.now }
        ensures { result.now ≡ drop height self.now }
    {
        &self.pairs[height..self.height]
    }

    // The pair on top.
    pub fn top(&self) -> Option<u64>
        ensures { IfSome result (OnTop self.now) }
    {
        if self.height == 0 {
            return None;
        }
        Some(self.pairs[self.height - 1])
    }

    pub fn push(&mut self, pair: u64) -> Option<()>
        ensures { IfSome result (λ _. self.new ≡ self.old ++ (pair ∷ [])) }
    {
        if self.height >= Bundle::LINKS {
            return None;
        }
        self.pairs[self.height] = pair;
        self.height += 1;
        Some(())
    }

    // The pair on top, taken off.
    pub fn pop(&mut self) -> Option<u64>
        ensures { IfSome result (λ pair. self.old ≡ self.new ++ (pair ∷ [])) }
    {
        if self.height == 0 {
            return None;
        }
        self.height -= 1;
        Some(self.pairs[self.height])
    }

    // Takes off what is above a height.
    pub fn cut(&mut self, height: usize)
        requires { height ≤ length self.old }
        ensures { self.new ≡ take height self.old }
    {
        self.height = height;
    }
}
