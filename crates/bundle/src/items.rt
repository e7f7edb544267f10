// The items of a list, one after another. A walk goes on while its link is not 0; it ends by itself, whatever the links are.
ghost use Rattle.std.specs.Prelude.{◌≡◌, ◌<◌, length};
ghost use Rattle.std.specs.Iterator.{YieldsFirst, item_count};
ghost use Rattle.bundle.specs.Bundle.{link_of, link_field};
ghost use Rattle.bundle.specs.Links.{follows, next_of, starts_at, items};

use super::Bundle;
use std::marker::Model;

// What holds the links of a bundle: a lent file, or the writer's scratch.
pub trait Links {
    ghost use Rattle.bundle.specs.Bundle.{Bundle, link_of, link_field};

    // The bundle that it stands for.
    ghost bundle: { Self → Bundle };

    // How many links there are.
    fn count(&self) -> usize
        ensures { result ≡ length (bundle self.now).links };

    // Field k of link i.
    fn field(&self, i: usize, k: usize) -> usize
        requires { k < 2 }
        ensures { result ≡ link_field (link_of (bundle self.now) i) k };
}

// What is left of a list: the items from a link on.
#[derive(Drop)]
pub struct Items<'b, L: Links> {
    of: &'b L,
    link: usize,
}

impl<'b, L: Links> Model for Items<'b, L> {
    ghost use Rattle.std.specs.Prelude.{ℕ, List, ◌≤◌, length};
    ghost use Rattle.bundle.specs.Links.{items};

    ghost Value = { List ℕ };

    ghost view = { λ s. items (L.bundle s.of.now) s.link };

    ghost invariant = { λ s. s.link ≤ length (L.bundle s.of.now).links };
}

impl<'b, L: Links> Items<'b, L> {
    // The items of the list that starts at a link.
    pub fn of(of: &'b L, start: usize) -> Items<'b, L>
        ensures { result ≡ items (L.bundle of.now) start }
    {
        Items {
            of,
            link: starting(of.count(), start),
        }
    }
}

impl<'b, L: Links> Iterator for Items<'b, L> {
    type Item = usize;

    ghost next_gives = { YieldsFirst (λ s. s) };

    ghost remaining = { item_count (λ s. s) };

    fn next(&mut self) -> Option<usize> {
        if self.link == 0 {
            return None;
        }
        let of = self.of;
        let item = of.field(self.link, 0);
        self.link = followed(of.count(), self.link, of.field(self.link, 1));
        Some(item)
    }
}

// The link after link i, whose next is so: 0 where the list ends there. Link 0 is no link, here as in the file.
pub fn followed(links: usize, i: usize, next: usize) -> usize
    ensures { result ≡ follows links i next }
{
    if (i < next) & (next <= links) {
        next
    } else {
        0
    }
}

// The first link of a list: 0, which starts the empty list, for a number that is no link's.
pub fn starting(links: usize, start: usize) -> usize
    ensures { result ≡ starts_at links start }
{
    if start <= links { start } else { 0 }
}

impl<'a> Links for Bundle<'a> {
    ghost bundle = { λ b. b };

    fn count(&self) -> usize {
        self.links()
    }

    fn field(&self, i: usize, k: usize) -> usize {
        self.link_field(i, k)
    }
}

impl<'a> Bundle<'a> {
    // The first link of a list: 0, which starts the empty list, for a number that is no link's.
    pub fn first_link(&self, start: usize) -> usize
        ensures { result ≡ starts_at (length self.now.links) start }
    {
        starting(self.links(), start)
    }

    // The link that follows link i, 0 where the list ends.
    pub fn next_link(&self, i: usize) -> usize
        ensures { result ≡ next_of self.now.links i }
    {
        followed(self.links(), i, self.link_field(i, 1))
    }

    // The items of the list that starts at a link.
    pub fn items<'b>(&'b self, start: usize) -> Items<'b, Bundle<'a>>
        ensures { result ≡ items self.now start }
    {
        Items::of(self, start)
    }
}
