// The terms that are filed so far.
ghost use Rattle.std.specs.Prelude.{◌≡◌, ◌≤◌, ◌<◌, length};
ghost use Rattle.bundle.specs.Bundle.{term_of};
ghost use Rattle.bundle.specs.LinkNotes.{Zeros};
ghost use Rattle.bundle.specs.Limits.{limits};
ghost use Rattle.logic.specs.Checks.{is_new};
ghost use Rattle.duplicates.specs.Digests.{term_digest, EarlierThan, NoneFiled, Files};

use super::is_new;
use bundle::Bundle;
use bundle::digests::{DIGESTS, Digest};
use std::marker::Model;

// The newest term of each digest; the one before each term, in lent words. A clause sees both.
#[derive(Drop)]
pub struct Earlier<'a> {
    heads: [u16; DIGESTS],
    next: &'a mut [u16],
}

impl<'a> Model for Earlier<'a> {
    ghost use Rattle.duplicates.specs.Digests.{Earlier};

    ghost Value = { Earlier };

    ghost view = { λ e. record { heads = e.heads; next = e.next.now } };
}

impl<'a> Earlier<'a> {
    // None, with room for each term.
    pub fn none(next: &'a mut [u16]) -> Earlier<'a>
        requires { Zeros next.old }
        ensures { NoneFiled result × (result.next ≡ next.old) }
    {
        Earlier {
            heads: [0u16; DIGESTS],
            next,
        }
    }

    // 9: whether none of them has the record of term i, where they are the terms below i, and d is its digest.
    pub fn is_new(&self, bundle: &Bundle, i: usize, d: Digest) -> bool
        requires { EarlierThan bundle.now self.now i × (i < length self.now.next) × (d ≡ term_digest bundle.now (term_of bundle.now i)) }
        ensures { result ≡ is_new bundle.now i }
    {
        is_new(bundle, &self.heads, self.next, i, d)
    }

    // Files term i, whose digest is d.
    pub fn file(&mut self, i: usize, d: Digest)
        requires { (1 ≤ i) × (i ≤ limits.terms) × (i < length self.old.next) }
        ensures { Files i d self.old self.new × (length self.new.next ≡ length self.old.next) }
    {
        let place = d.place();
        self.next[i] = self.heads[place];
        self.heads[place] = i as u16;
    }
}
