// Walks of lists of links in the scratch.
ghost use Rattle.std.specs.Prelude.{◌≡◌, length};
ghost use Rattle.bundle.specs.Links.{next_of, starts_at, items};
ghost use Rattle.bundle.specs.Lists.{same_list};
ghost use Rattle.scratch.specs.Stack.{halves_of};

use super::View;
use super::pairs::half;
use bundle::items::{Items, Links, followed, starting};

impl<'a> Links for View<'a> {
    ghost use Rattle.bundle.specs.Bundle.{Bundle};

    ghost bundle = { λ (b : Bundle). b };

    fn count(&self) -> usize {
        self.links()
    }

    fn field(&self, i: usize, k: usize) -> usize {
        self.link_field(i, k)
    }
}

impl<'a> View<'a> {
    // The first link of a list: 0, which starts the empty list, for a number that is no link's. This and the next are alike to those of a file: one for both
    // would be a method of `Links`, and each call of it an import of the trait.
    pub fn first_link(&self, start: usize) -> usize
        ensures { result ≡ starts_at (length self.now.links) start }
    {
        starting(self.links(), start)
    }

    // The link that follows link i, 0 where the list ends.
    pub fn next_link(&self, i: usize) -> usize
        ensures { result ≡ next_of self.now.links i }
    {
        followed(self.links(), i, self.link_field(i, 1))
    }

    // The items of the list that starts at a link.
    pub fn items<'b>(&'b self, start: usize) -> Items<'b, View<'a>>
        ensures { result ≡ items self.now start }
    {
        Items::of(self, start)
    }
}

// Whether a list, of the scratch or of a lent file, has just the upper halves of pairs, or just the lower.
pub fn same_halves<L: Links>(of: &L, list: usize, pairs: &[u64], upper: bool) -> bool
    ensures { result ≡ same_list (items (L.bundle of.now) list) (halves_of upper pairs.now) }
{
    let mut values = Items::of(of, list);
    for pair in pairs {
        let Some(value) = values.next() else {
            return false;
        };
        if value != half(*pair, upper) {
            return false;
        }
    }
    values.next().is_none()
}
