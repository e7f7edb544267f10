// A bundle with the sorts of its terms, and lists of sorts compared.
ghost use Rattle.std.specs.Prelude.{◌≡◌, true, map, replicate, ◌≤◌, ◌<◌, length};
ghost use Rattle.bundle.specs.Bundle.{sort_of_variable};
ghost use Rattle.bundle.specs.Links.{items};
ghost use Rattle.bundle.specs.Lists.{same_list};
ghost use Rattle.bundle.specs.LinkNotes.{Zeros};
ghost use Rattle.logic.specs.Symbols.{argument_sorts};
ghost use Rattle.logic.specs.Sorts.{sort_at};
ghost use Rattle.sorting.specs.Notes.{Sorted, Fitting};

use super::notes::note_sorts;
use super::sorts::sort_in;
use bundle::Bundle;
use logic::Signature;
use std::marker::Model;

// A bundle, and the sort of each of its terms. A clause sees the bundle.
#[derive(Drop)]
pub struct SortedBundle<'a> {
    bundle: &'a Bundle<'a>,
    sorts: &'a [usize],
}

impl<'a> Model for SortedBundle<'a> {
    ghost use Rattle.bundle.specs.Bundle.{Bundle};
    ghost use Rattle.sorting.specs.Notes.{Sorted};

    ghost Value = { Bundle };

    ghost view = { λ s. s.bundle.now };

    ghost invariant = { λ s. Sorted s.bundle.now s.sorts.now };
}

impl<'a> SortedBundle<'a> {
    pub fn of(bundle: &'a Bundle<'a>, sorts: &'a [usize]) -> SortedBundle<'a>
        requires { Sorted bundle.now sorts.now }
        ensures { result ≡ bundle.now }
    {
        SortedBundle { bundle, sorts }
    }

    // The same, where the sorts are still to be noted.
    pub fn noted(bundle: &'a Bundle<'a>, sorts: &'a mut [usize]) -> SortedBundle<'a>
        requires { (length bundle.now.terms < length sorts.old) × Zeros sorts.old }
        ensures { result ≡ bundle.now }
    {
        note_sorts(bundle, sorts);
        SortedBundle::of(bundle, sorts)
    }

    pub fn bundle(&self) -> &'a Bundle<'a>
        ensures { result.now ≡ self.now }
    {
        self.bundle
    }

    // The sort of term t; 0 for a number that is no term's.
    pub fn sort(&self, t: usize) -> usize
        ensures { result ≡ sort_at self.now t }
    {
        sort_in(self.sorts, t)
    }

    // Whether the terms of a list are so many, each of the same sort. Alike to `variables_fit` and to `same_list`: two sequences side by side, each with a
    // test and a definition of its own.
    fn all_of_sort(&self, count: usize, sort: usize, terms: usize) -> bool
        ensures { result ≡ same_list (replicate count sort) (map (sort_at self.now) (items self.now terms)) }
    {
        let mut rest = self.bundle.items(terms);
        for _ in 0..count {
            let Some(t) = rest.next() else {
                return false;
            };
            if sort != self.sort(t) {
                return false;
            }
        }
        rest.next().is_none()
    }

    // Whether the terms from link `terms` on have the sorts from link `list` on, one each: up to a link from which that is noted. Each link on the
    // way is noted before the rest of its list is known, so what is noted holds only where the answer is yes.
    fn far_sorts(&self, fitting: &mut [u16], list: usize, terms: usize) -> bool
        requires { Fitting self.now fitting.old × (list ≤ length self.now.links) × (terms ≤ length self.now.links) }
        ensures { (result ≡ same_list (items self.now list) (map (sort_at self.now) (items self.now terms))) × (result ≡ true → Fitting self.now fitting.new) }
    {
        let bundle = self.bundle;
        // There are few enough links that a link's number fits in 16 bits.
        prove!(bundle.links() <= Bundle::LINKS);
        let mut i = list;
        let mut j = terms;
        // By links, since what is noted is kept by them.
        while i != 0 {
            if j == 0 {
                return false;
            }
            if usize::from(fitting[j]) == i {
                return true;
            }
            fitting[j] = i as u16;
            let sort = bundle.link_field(i, 0);
            let t = bundle.link_field(j, 0);
            if sort != self.sort(t) {
                return false;
            }
            i = bundle.next_link(i);
            j = bundle.next_link(j);
        }
        j == 0
    }

    // Whether the terms of a list have the sorts of a list of sorts, one each. Most lists end before anything is noted.
    fn same_sorts(&self, fitting: &mut [u16], list: usize, terms: usize) -> bool
        requires { Fitting self.now fitting.old }
        ensures { (result ≡ same_list (items self.now list) (map (sort_at self.now) (items self.now terms))) × (result ≡ true → Fitting self.now fitting.new) }
    {
        let bundle = self.bundle;
        let mut i = bundle.first_link(list);
        let mut j = bundle.first_link(terms);
        // By links, since the two that it comes to are handed on.
        for _ in 0..8 {
            if i == 0 {
                return j == 0;
            }
            if j == 0 {
                return false;
            }
            let sort = bundle.link_field(i, 0);
            let t = bundle.link_field(j, 0);
            if sort != self.sort(t) {
                return false;
            }
            i = bundle.next_link(i);
            j = bundle.next_link(j);
        }
        self.far_sorts(fitting, i, j)
    }

    // Whether the terms of a list have the sorts of a symbol's arguments.
    pub fn arguments_fit(&self, fitting: &mut [u16], s: Signature, terms: usize) -> bool
        requires { Fitting self.now fitting.old }
        ensures { (result ≡ same_list (argument_sorts self.now s) (map (sort_at self.now) (items self.now terms))) × (result ≡ true → Fitting self.now fitting.new) }
    {
        match s {
            Signature::BuiltIn {
                count,
                sort,
                result: _,
            } => self.all_of_sort(count, sort, terms),
            Signature::Declared(i) => {
                let list = self.bundle.symbol_field(i, 1);
                self.same_sorts(fitting, list, terms)
            }
            Signature::Unknown => self.bundle.first_link(terms) == 0,
        }
    }

    // Whether the terms of a list have the sorts of the variables of another, one each. This and `some_different` are apart, each small enough to be part
    // of its callers' loops.
    pub fn variables_fit(&self, variables: usize, terms: usize) -> bool
        ensures { result ≡ same_list (map (sort_of_variable self.now) (items self.now variables)) (map (sort_at self.now) (items self.now terms)) }
    {
        let mut others = self.bundle.items(terms);
        for v in self.bundle.items(variables) {
            let Some(t) = others.next() else {
                return false;
            };
            if self.bundle.variable_sort(v) != self.sort(t) {
                return false;
            }
        }
        others.next().is_none()
    }
}
