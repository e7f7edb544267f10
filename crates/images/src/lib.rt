// What is known of contexts, in lent words: what their entries say of each variable, and the variables that they move and mention.
#![tactic(auto)]

pub mod images; // images.rt: mentions and images of variables, as the words have them
pub mod rows; // rows.rt: the table of images, and the sets of moved and of mentioned variables, written

ghost use Rattle.std.specs.Prelude.{◌≡◌, ◌≤◌, length};
ghost use Rattle.free_variables.specs.TermSets.{settled_in, moved_at};
ghost use Rattle.images.specs.ContextRows.{image_at};
ghost use Rattle.images.specs.LentReading.{Known, Lent};

use bundle::Bundle;
use free_variables::term_sets::TermSets;
use images::image_of;
use logic::Image;
use std::marker::Model;

// What is known of a file while its steps are judged: the free variables of its terms, the table of images, and of each context the sets of variables that
// it moves and mentions. All of it lent words, whatever they hold.
#[derive(Drop)]
pub struct Known<'a> {
    sets: &'a TermSets<'a>,
    images: &'a [u16],
    scopes: &'a [u64],
}

impl<'a> Model for Known<'a> {
    ghost use Rattle.images.specs.LentReading.{Known, Lent};

    ghost Value = { Known };

    ghost view = { λ k. record { sets = k.sets.now; images = k.images.now; scopes = k.scopes.now } };

    ghost invariant = { λ k. Lent (record { sets = k.sets.now; images = k.images.now; scopes = k.scopes.now }) };
}

impl<'a> Known<'a> {
    pub fn of(sets: &'a TermSets<'a>, images: &'a [u16], scopes: &'a [u64]) -> Known<'a>
        requires { Lent (record { sets = sets.now; images = images.now; scopes = scopes.now }) }
        ensures { result ≡ record { sets = sets.now; images = images.now; scopes = scopes.now } }
    {
        Known {
            sets,
            images,
            scopes,
        }
    }

    pub fn sets(&self) -> &'a TermSets<'a>
        ensures { (result.now ≡ self.now.sets) × Lent self.now }
    {
        self.sets
    }

    pub fn bundle(&self) -> &'a Bundle<'a>
        ensures { result.now ≡ self.now.sets.bundle }
    {
        self.sets.bundle()
    }

    pub fn images(&self) -> &'a [u16]
        ensures { (result.now ≡ self.now.images) × Lent self.now }
    {
        self.images
    }

    pub fn scopes(&self) -> &'a [u64]
        ensures { (result.now ≡ self.now.scopes) × Lent self.now }
    {
        self.scopes
    }

    // The image of variable x in a context.
    pub fn image(&self, context: usize, x: usize) -> Image
        requires { context ≤ length self.now.sets.bundle.contexts }
        ensures { result ≡ image_at (length self.now.sets.bundle.variables) self.now.images context x }
    {
        image_of(self.sets.bundle().variables(), self.images, context, x)
    }

    // Whether term t is settled in a context: no variable that the context moves is free in it.
    pub fn is_settled(&self, context: usize, t: usize) -> bool
        requires { context ≤ length self.now.sets.bundle.contexts }
        ensures { result ≡ settled_in self.now.sets self.now.scopes (moved_at self.now.sets.n context) t }
    {
        self.sets
            .is_settled(self.scopes, 2 * self.sets.n() * context, t)
    }
}
