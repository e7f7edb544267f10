// Tests of lists of links.
ghost use Rattle.std.specs.Prelude.{◌≡◌, length, eqb};
ghost use Rattle.bundle.specs.Links.{items};
ghost use Rattle.bundle.specs.Lists.{same_list, numbers, each, has, different, first_of, second_of, single, last_of};

use super::Bundle;

impl<'a> Bundle<'a> {
    // Whether two lists are the same, item by item.
    pub fn same_list(&self, first: usize, second: usize) -> bool
        ensures { result ≡ same_list (items self.now first) (items self.now second) }
    {
        let mut others = self.items(second);
        for x in self.items(first) {
            let Some(y) = others.next() else {
                return false;
            };
            if x != y {
                return false;
            }
        }
        others.next().is_none()
    }

    // Whether each item of a list is a record's number in a section of n: 1 to n.
    pub fn all_numbers(&self, list: usize, n: usize) -> bool
        ensures { result ≡ each (numbers n) (items self.now list) }
    {
        for x in self.items(list) {
            if (x == 0) | (x > n) {
                return false;
            }
        }
        true
    }

    // Whether x is in the list.
    pub fn has_item(&self, list: usize, x: usize) -> bool
        ensures { result ≡ has x (items self.now list) }
    {
        for y in self.items(list) {
            if x == y {
                return true;
            }
        }
        false
    }

    // Whether no item is in the list twice.
    pub fn all_different(&self, list: usize) -> bool
        ensures { result ≡ different (items self.now list) }
    {
        let mut i = self.first_link(list);
        // No `for`: each item is looked for in the list that follows it, which starts at its link's next.
        while i != 0 {
            let x = self.link_field(i, 0);
            let rest = self.next_link(i);
            if self.has_item(rest, x) {
                return false;
            }
            i = rest;
        }
        true
    }

    // The first item of a list; 0 for none, and no `Option`: a link that is none reads zeros, and what the item is compared with are records' fields.
    pub fn first_item(&self, list: usize) -> usize
        ensures { result ≡ first_of (items self.now list) }
    {
        self.link_field(list, 0)
    }

    // The second item of a list; 0 for none, as above.
    pub fn second_item(&self, list: usize) -> usize
        ensures { result ≡ second_of (items self.now list) }
    {
        let second = self.next_link(self.first_link(list));
        self.link_field(second, 0)
    }

    // The last item of a list; 0 for none, as above.
    pub fn last_item(&self, list: usize) -> usize
        ensures { result ≡ last_of (items self.now list) }
    {
        let mut last = 0;
        for x in self.items(list) {
            last = x;
        }
        last
    }

    // Whether a list has one item.
    pub fn is_single(&self, list: usize) -> bool
        ensures { result ≡ single (items self.now list) }
    {
        let first = self.first_link(list);
        let next = self.next_link(first);
        (first != 0) & (next == 0)
    }

    // Whether a list has two items.
    pub fn is_pair(&self, list: usize) -> bool
        ensures { result ≡ eqb (length (items self.now list)) 2 }
    {
        let first = self.first_link(list);
        let second = self.next_link(first);
        let third = self.next_link(second);
        (second != 0) & (third == 0)
    }
}
