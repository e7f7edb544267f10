// The path: the pairs above the one that is visited, the outermost first. A left part is lower than its term, so a path has no more of them than there
// are terms.
ghost use Rattle.std.specs.Prelude.{◌≡◌, [], ◌∷◌, ◌++◌, ◌-◌, cond, length, take, ltb, slice_get};
ghost use Rattle.bundle.specs.Limits.{limits};
ghost use Rattle.show_pairs.specs.Levels.{term_on, word_on};

use arrayvec::ArrayVec;
use bundle::Bundle;
use std::marker::Model;

// A pair whose parts are visited: its terms, the links of the parts that come next on both sides, and whether the walk is in the bodies, so that the
// variables of both are crossed. A flag, and no `Option`: nothing of the pair is missing before. The default stands in places that are not used.
#[derive(Clone, Copy, Default)]
pub struct Level {
    pub left: usize,
    pub right: usize,
    pub left_link: usize,
    pub right_link: usize,
    pub in_body: bool,
}

// Both sides of a pair, by name: neither is a value that may be missing.
#[derive(Clone, Copy, PartialEq, Eq)]
pub enum Side {
    Left,
    Right,
}

impl Level {
    pub fn term(&self, side: Side) -> usize
        ensures { result ≡ term_on side self.now }
    {
        match side {
            Side::Left => self.left,
            Side::Right => self.right,
        }
    }

    // A word of it: its terms by their sides' numbers, the links, then 1 where the walk is in the bodies. None other is there.
    #[tactic(auto, unfolding(crate::specs::Levels::word_on))]
    pub fn word(&self, place: usize) -> usize
        ensures { result ≡ word_on place self.now }
    {
        match place {
            0 => self.left,
            1 => self.right,
            2 => self.left_link,
            3 => self.right_link,
            4 => usize::from(self.in_body),
            _ => 0,
        }
    }
}

// A clause sees the levels, the outermost first.
#[derive(Drop)]
pub struct Path {
    levels: ArrayVec<Level, { Bundle::TERMS }>,
}

impl Model for Path {
    ghost use Rattle.std.specs.Prelude.{List, ◌≤◌, length};
    ghost use Rattle.bundle.specs.Limits.{limits};
    ghost use Rattle.show_pairs.specs.declared.path.Level.{Level};

    ghost Value = { List Level };

    ghost view = { λ p. p.levels.items };

    ghost invariant = { λ p. length p.levels.items ≤ limits.terms };
}

impl Path {
    pub fn new() -> Path
        ensures { result ≡ [] }
    {
        Path {
            levels: ArrayVec::new(),
        }
    }

    pub fn levels(&self) -> &[Level]
        ensures { result.now ≡ self.now }
    {
        self.levels.as_slice()
    }

    pub fn last(&self) -> Option<Level>
        ensures { result ≡ slice_get self.now (length self.now - 1) }
    {
        self.levels.last().copied()
    }

    // A level more, where there is room.
    pub fn push(&mut self, level: Level)
        ensures { self.new ≡ cond (ltb (length self.old) limits.terms) (self.old ++ (level ∷ [])) self.old }
    {
        let _ = self.levels.try_push(level);
    }

    // The last level is left, where there is one.
    pub fn pop(&mut self)
        ensures { self.new ≡ take (length self.old - 1) self.old }
    {
        self.levels.pop();
    }
}
