// What is known of each context, written once: what its entries say of all variables, and the sets of those that it moves and of those that they mention.
// The row and the sets of a context start as its parent's; then its entry is written over them.
ghost use Rattle.std.specs.Prelude.{◌≡◌, true, cond, ℕ, ◌+◌, ◌*◌, ◌≤◌, ◌<◌, length, eqb};
ghost use Rattle.std.specs.List.{CopiedTo, SameBelow};
ghost use Rattle.bundle.specs.Links.{items};
ghost use Rattle.bundle.specs.Lists.{numbers, each, different};
ghost use Rattle.logic.specs.Contexts.{lookup, or_above, as_image, moved_by, context_refers};
ghost use Rattle.images.specs.ContextRows.{Rows, fixed_place, as_mention, mention_in, Images, Scopes, RowRoom, Untouched, SetsCopied, Agrees, Entered};

use super::images::{FIXED, is_variable};
use bundle::Bundle;
use logic::kinds::Entry;
use std::marker::Model;

// Copies `count` places to others further on. One by one, as rows are short: `copy_within` took 31 % more instructions of whole checks, and a copy between two
// slices is a call of the C library's `memmove`, which the library for C would need then.
fn copy_up<T: Copy>(places: &mut [T], from: usize, to: usize, count: usize)
    requires { (from + count ≤ to) × (to + count ≤ length places.old) }
    ensures { (length places.new ≡ length places.old) × CopiedTo places.old places.new from to count × SameBelow places.old places.new to }
{
    for k in 0..count {
        places[to + k] = places[from + k];
    }
}

// The table of images and the two sets of each context, n words a set, in lent words.
#[derive(Drop)]
pub struct Rows<'a> {
    bundle: &'a Bundle<'a>,
    images: &'a mut [u16],
    scopes: &'a mut [u64],
    n: usize,
}

impl<'a> Model for Rows<'a> {
    ghost use Rattle.images.specs.ContextRows.{Rows};

    ghost Value = { Rows };

    ghost view = { λ r. record { bundle = r.bundle.now; images = r.images.now; scopes = r.scopes.now; n = r.n } };
}

impl<'a> Rows<'a> {
    pub fn of(
        bundle: &'a Bundle<'a>,
        images: &'a mut [u16],
        scopes: &'a mut [u64],
        n: usize,
    ) -> Rows<'a>
        ensures { result ≡ record { bundle = bundle.now; images = images.old; scopes = scopes.old; n = n } }
    {
        Rows {
            bundle,
            images,
            scopes,
            n,
        }
    }

    // What was lent, given back.
    pub fn into_parts(self) -> (&'a mut [u16], &'a mut [u64])
        ensures { (result.0.now ≡ self.entry.images) × (result.1.now ≡ self.entry.scopes) }
    {
        (self.images, self.scopes)
    }

    pub fn images(&self) -> &[u16]
        ensures { result.now ≡ self.now.images }
    {
        let images = &*self.images;
        images
    }

    pub fn scopes(&self) -> &[u64]
        ensures { result.now ≡ self.now.scopes }
    {
        let scopes = &*self.scopes;
        scopes
    }

    // Gives context k the row and the sets of its parent.
    fn inherit(&mut self, k: usize, parent: usize)
        requires { RowRoom self.old k × (parent < k) }
        ensures { Untouched self.old self.new k
            × ((x : ℕ) → mention_in self.old.bundle self.new.images k x ≡ mention_in self.old.bundle self.old.images parent x)
            × SetsCopied self.old.scopes self.new.scopes self.old.n k parent }
    {
        let row = self.bundle.variables();
        let sets = 2 * self.n;
        copy_up(self.images, row * parent, row * k, row);
        copy_up(self.scopes, sets * parent, sets * k, sets);
    }

    // Writes the place of variable x in context k: the term t that replaces it, or FIXED.
    fn set_image(&mut self, k: usize, x: usize, t: usize, moves: bool)
        requires { RowRoom self.old k × (1 ≤ x) × (x ≤ length self.old.bundle.variables) × (length self.old.bundle.variables ≤ 64 * self.old.n)
            × (1 ≤ t) × (t ≤ fixed_place) × (moves ≡ moved_by self.old.bundle (as_image (as_mention t)) x) × Agrees self.old k }
        ensures { Entered self.old self.new k (λ y m. cond (eqb x y) (as_mention t) m) }
    {
        self.images[self.bundle.variables() * k + (x - 1)] = t as u16;
        let n = self.n;
        let at = 2 * n * k;
        sets::insert(self.scopes, at + n, n, x);
        if moves {
            sets::insert(self.scopes, at, n, x);
        } else {
            sets::remove(self.scopes, at, n, x);
        }
    }

    // Replaces the variables of a list by the terms of another, side by side, in context k.
    fn replace(&mut self, k: usize, variables: usize, terms: usize)
        requires { RowRoom self.old k × (length self.old.bundle.variables ≤ 64 * self.old.n)
            × (each (numbers (length self.old.bundle.variables)) (items self.old.bundle variables) ≡ true)
            × (each (numbers (length self.old.bundle.terms)) (items self.old.bundle terms) ≡ true)
            × (different (items self.old.bundle variables) ≡ true) × Agrees self.old k }
        ensures { Entered self.old self.new k (λ x m. or_above (lookup (items self.old.bundle variables) (items self.old.bundle terms) x) m) }
    {
        let bundle = self.bundle;
        let _terms = bundle.terms(); // at most 1,024: none stands for a fixed variable
        let mut others = bundle.items(terms);
        for x in bundle.items(variables) {
            let Some(t) = others.next() else {
                return;
            };
            let own = is_variable(bundle, t, x);
            self.set_image(k, x, t, !own);
        }
    }

    // Writes what is known of context k, where that of the lower ones is written.
    pub fn enter(&mut self, k: usize)
        requires { let b = self.old.bundle in Images b self.old.images k × Scopes b self.old.scopes self.old.n k × RowRoom self.old k
            × (length b.variables ≤ 64 * self.old.n) × (context_refers b k ≡ true) }
        ensures same { (self.new.bundle ≡ self.old.bundle) × (self.new.n ≡ self.old.n)
            × (length self.new.images ≡ length self.old.images) × (length self.new.scopes ≡ length self.old.scopes) }
        ensures entered { let b = self.old.bundle in Images b self.new.images (k + 1) × Scopes b self.new.scopes self.old.n (k + 1) }
    {
        let bundle = self.bundle;
        let kind = bundle.context_field(k, 0);
        let first = bundle.context_field(k, 1);
        let second = bundle.context_field(k, 2);
        let parent = bundle.context_field(k, 3);
        self.inherit(k, parent);
        if kind == Entry::Fixes.number() {
            self.set_image(k, first, FIXED, false);
        } else {
            self.replace(k, first, second);
        }
    }
}
