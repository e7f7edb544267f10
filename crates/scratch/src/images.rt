// Images of variables in contexts of the scratch, by a walk towards the empty context.
ghost use Rattle.std.specs.Prelude.{◌≡◌, ℕ, ◌≤◌};
ghost use Rattle.bundle.specs.Words.{largest_word};
ghost use Rattle.bundle.specs.Bundle.{context_of};
ghost use Rattle.bundle.specs.Links.{items};
ghost use Rattle.logic.specs.declared.Mention.TheVariants.{Replaced};
ghost use Rattle.logic.specs.declared.Image.TheVariants.{Gives};
ghost use Rattle.logic.specs.Contexts.{lookup, mention, image};

use super::View;
use logic::kinds::Entry;
use logic::{Image, Mention};

impl<'a> View<'a> {
    // What a list of variables and a list of terms, side by side, say of the variable x.
    fn lookup(&self, variables: usize, terms: usize, x: usize) -> Mention
        ensures { (result ≡ lookup (items self.now variables) (items self.now terms) x) × ((t : ℕ) → result ≡ Replaced t → t ≤ largest_word) }
    {
        // The terms by their links, whose fields are words.
        let mut j = self.first_link(terms);
        for v in self.items(variables) {
            if j == 0 {
                return Mention::Absent;
            }
            if v == x {
                return Mention::Replaced(self.link_field(j, 0));
            }
            j = self.next_link(j);
        }
        Mention::Absent
    }

    // What the entry of context k says of the variable x.
    fn mention(&self, k: usize, x: usize) -> Mention
        ensures { (result ≡ mention self.now (context_of self.now k) x) × ((t : ℕ) → result ≡ Replaced t → t ≤ largest_word) }
    {
        let first = self.context_field(k, 1);
        let second = self.context_field(k, 2);
        match Entry::of(self.context_field(k, 0)) {
            Some(Entry::Fixes) => {
                if first == x {
                    Mention::Fixed
                } else {
                    Mention::Absent
                }
            }
            Some(Entry::Replaces) => self.lookup(first, second, x),
            None => Mention::Fixed,
        }
    }

    // The image of variable x in a context: towards the empty context, the first entry that mentions x.
    pub fn image(&self, context: usize, x: usize) -> Image
        ensures { (result ≡ image self.now context x) × ((t : ℕ) → result ≡ Gives t → t ≤ largest_word) }
    {
        let mut k = context;
        // No `for`: each context names its parent.
        while k != 0 {
            match self.mention(k, x) {
                Mention::Fixed => {
                    return Image::Own;
                }
                Mention::Replaced(t) => {
                    return Image::Gives(t);
                }
                Mention::Absent => {}
            }
            let parent = self.context_field(k, 3);
            if parent >= k {
                return Image::Own;
            }
            k = parent;
        }
        Image::Own
    }
}
