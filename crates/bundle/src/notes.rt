// Walks that note, at links of long lists, that each item from there on is 1 to n: a list that many records share is walked once.
ghost use Rattle.std.specs.Prelude.{◌≡◌, true, ◌≤◌, length};
ghost use Rattle.bundle.specs.Links.{items};
ghost use Rattle.bundle.specs.Lists.{numbers, each};
ghost use Rattle.bundle.specs.LinkNotes.{LowerNoted};

use super::Bundle;

// Notes are bytes and no `bool`s: clauses speak of lists of numbers.

impl<'a> Bundle<'a> {
    // Whether each item from link `start` on is 1 to n: up to a link from which that is noted. Each link on the way is noted before the rest of its
    // list is known, so what is noted holds only where the answer is yes.
    pub fn far_lower(&self, lower: &mut [u8], start: usize, n: usize) -> bool
        requires { LowerNoted self.now n lower.old × (start ≤ length self.now.links) }
        ensures { (result ≡ each (numbers n) (items self.now start))
            × (result ≡ true → LowerNoted self.now n lower.new) }
    {
        let mut i = start;
        // No `for`: the link's number is the place of its note.
        while i != 0 {
            if lower[i] != 0 {
                return true;
            }
            lower[i] = 1;
            let x = self.link_field(i, 0);
            if (x == 0) | (x > n) {
                return false;
            }
            i = self.next_link(i);
        }
        true
    }

    // Whether each item of a list is 1 to n. The first links are not noted: most lists of terms end before any is.
    pub fn all_lower(&self, lower: &mut [u8], list: usize, n: usize) -> bool
        requires { LowerNoted self.now n lower.old }
        ensures { (result ≡ each (numbers n) (items self.now list))
            × (result ≡ true → LowerNoted self.now n lower.new) }
    {
        let mut i = self.first_link(list);
        let mut left = 8usize;
        // No `for`: the link where this stops is handed on.
        while (i != 0) & (left != 0) {
            let x = self.link_field(i, 0);
            if (x == 0) | (x > n) {
                return false;
            }
            i = self.next_link(i);
            left -= 1;
        }
        if i == 0 {
            return true;
        }
        self.far_lower(lower, i, n)
    }
}
