// What the walk of whole-term REFL knows of the binders that it has crossed, and whether a pair of terms meets by itself.
#![tactic(auto)]

ghost use Rattle.std.specs.Prelude.{◌≡◌, ◌∷◌, ◌+◌, ◌*◌, ◌≤◌, ◌<◌, length};
ghost use Rattle.bundle.specs.Bundle.{term_of};
ghost use Rattle.free_variables.specs.TermSets.{free_in};
ghost use Rattle.logic.specs.Lists.{Number};
ghost use Rattle.logic.specs.ReflWalk.{Crossed, lefts, rights};
ghost use Rattle.images.specs.ContextRows.{image_at};
ghost use Rattle.crossings.specs.Places.{stamp, HaveCrossed};
ghost use Rattle.crossings.specs.Pairs.{meets_by};

pub mod arrays; // arrays.rt: the places of the variables crossed, and pairs that meet, over lent words
pub mod records; // records.rt: records that meet, where the left one is no variable
pub mod variables; // variables.rt: whether a term is the image of a variable

use arrays::{Before, cross, pair_meets, uncross};
use bundle::Bundle;
use free_variables::term_sets::TermSets;
use std::marker::Model;

// The binders crossed on a walk, in lent words: the place of each of the file's variables on the left, then on the right; the set of those bound on
// the right. With the sets of the file's terms.
#[derive(Drop)]
pub struct Binders<'s, 'a> {
    // A copy, and no reference: what is read in the walk's loop stays in registers (without it 14 % more instructions).
    sets: TermSets<'s>,
    places: &'a mut [u16],
    bound: &'a mut [u64],
}

impl<'s, 'a> Model for Binders<'s, 'a> {
    ghost use Rattle.crossings.specs.Places.{Binders, BindersFit};

    ghost Value = { Binders };

    ghost view = { λ b. record { sets = b.sets; places = b.places.now; bound = b.bound.now } };

    ghost invariant = { λ b. BindersFit b.sets b.places.now b.bound.now };
}

impl<'s, 'a> Binders<'s, 'a> {
    pub fn of(sets: &TermSets<'s>, places: &'a mut [u16], bound: &'a mut [u64]) -> Binders<'s, 'a>
        requires { (length sets.now.bundle.variables + length sets.now.bundle.variables ≤ length places.old) × (sets.now.n ≤ length bound.old) }
        ensures { result ≡ record { sets = sets.now; places = places.old; bound = bound.old } }
    {
        let sets = TermSets::of(sets.bundle(), sets.words(), sets.n());
        Binders {
            sets,
            places,
            bound,
        }
    }

    pub fn bundle(&self) -> &'s Bundle<'s>
        ensures { result.now ≡ self.now.sets.bundle }
    {
        self.sets.bundle()
    }

    // ---- Binders crossed

    // Crosses a binder of x on the left and of y on the right, where `depth` were crossed before.
    pub fn cross(&mut self, x: usize, y: usize, depth: usize) -> Before
        requires { Number (length self.old.sets.bundle.variables) x × Number (length self.old.sets.bundle.variables) y
            × (length self.old.sets.bundle.variables ≤ 64 * self.old.sets.n) × (depth < 65535) }
        ensures { (self.new.sets ≡ self.old.sets)
            × ((ps : Crossed) → length ps ≡ depth → HaveCrossed self.old ps
            → HaveCrossed self.new ((x, y) ∷ ps) × (result.left ≡ stamp (lefts ps) x) × (result.right ≡ stamp (rights ps) y))
            × (length self.new.places ≡ length self.old.places) × (length self.new.bound ≡ length self.old.bound) }
    {
        let count = self.sets.bundle().variables();
        let n = self.sets.n();
        cross(count, n, self.places, self.bound, x, y, depth)
    }

    // Takes that back: x had the place `left` before, and y had `right`.
    pub fn uncross(&mut self, x: usize, y: usize, left: usize, right: usize)
        requires { Number (length self.old.sets.bundle.variables) x × Number (length self.old.sets.bundle.variables) y
            × (length self.old.sets.bundle.variables ≤ 64 * self.old.sets.n) × (left ≤ 65535) × (right ≤ 65535) }
        ensures { (self.new.sets ≡ self.old.sets)
            × ((ps : Crossed) → left ≡ stamp (lefts ps) x → right ≡ stamp (rights ps) y → HaveCrossed self.old ((x, y) ∷ ps) → HaveCrossed self.new ps)
            × (length self.new.places ≡ length self.old.places) × (length self.new.bound ≡ length self.old.bound) }
    {
        let count = self.sets.bundle().variables();
        let n = self.sets.n();
        uncross(count, n, self.places, self.bound, x, y, left, right);
    }

    // ---- Pairs

    // Whether the pair of terms l and r meets by itself, without its parts, under the binders crossed.
    pub fn pair_meets(&self, images: &[u16], context: usize, l: usize, r: usize) -> bool
        requires { length self.now.sets.bundle.variables * (context + 1) ≤ length images.now }
        ensures { (ps : Crossed) → HaveCrossed self.now ps
            → result ≡ meets_by (free_in self.now.sets) (image_at (length self.now.sets.bundle.variables) images.now context) self.now.sets.bundle
            (term_of self.now.sets.bundle l) ps r }
    {
        pair_meets(&self.sets, images, context, self.places, self.bound, l, r)
    }
}
