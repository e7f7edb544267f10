// Unions of the free sets of lists, n words each. A list's first links are united one by one, and so are those of the rest that no list has had before.
// What lists share is united once for all of them: `lists` has, for each link that is known, the union of the sets of the list that starts there, at
// word n * link; `marks` says which links were met, and which are known. A set is given by its place in the area, and not as a slice: those of the terms
// below it are read while it is written.
#![tactic(auto)]

ghost use Rattle.std.specs.Prelude.{ℕ, List, get_or, true, false, ◌≡◌, ◌⊎◌, ◌||◌, ◌+◌, ◌*◌, ◌-◌, ◌≤◌, ◌<◌, length};
ghost use Rattle.bundle.specs.Limits.{limits};
ghost use Rattle.bundle.specs.Links.{items};
ghost use Rattle.bundle.specs.Lists.{numbers};
ghost use Rattle.sets.specs.Sets.{member};
ghost use Rattle.unions.specs.Put.{SetRoom, Put, set_below, SetsBelow};
ghost use Rattle.unions.specs.Unions.{known, unmet, joined, Unions, Uniting, Partly, Adds};

use bundle::Bundle;
use std::marker::Model;

// The mark of a known link. Any other mark but 0 says that the link was met; while a walk is on its way out, it is the link before: so marks are numbers,
// and no enum.
const KNOWN: u16 = 65535;

const MET: u16 = 1;

// So many links of a list are united one by one, with no look at marks: most lists are no longer.
const SHORT: usize = 4;

// Adds the set of term i, if it is lower, to that of term t, which stands at word `at`.
pub fn unite_term(area: &mut [u64], n: usize, t: usize, at: usize, i: usize)
    requires { SetRoom area.old n t at }
    ensures { Put area.old area.new n at (λ x. member area.old at n x || set_below area.old n t i x) }
{
    if i == 0 {
        return;
    }
    if i >= t {
        return;
    }
    sets::unite(area, at, n * (i - 1), n);
}

// The same for a term far in a list. A second `unite_term`, for speed: with the loop alone over the words of a set, long lists are faster, and short ones
// without it.
fn unite_far(area: &mut [u64], n: usize, t: usize, at: usize, i: usize)
    requires { SetRoom area.old n t at }
    ensures { Put area.old area.new n at (λ x. member area.old at n x || set_below area.old n t i x) }
{
    if i == 0 {
        return;
    }
    if i >= t {
        return;
    }
    sets::unite_words(area, at, n * (i - 1), n);
}

// Whether the list that starts at link k, which has this mark, is known: the empty list is.
fn is_known(k: usize, mark: u16) -> bool
    ensures { (marks : List ℕ) → get_or marks k 0 ≡ mark → result ≡ known marks k }
{
    (k == 0) | (mark == KNOWN)
}

// Whether x is the number of a term below t. Crate terms has its own, of a record's number.
fn is_lower(t: usize, x: usize) -> bool
    requires { 1 ≤ t }
    ensures { result ≡ numbers (t - 1) x }
{
    let lower = t - 1;
    (0 < x) & (x <= lower)
}

// `join`, `unite_kept` and `sets::unite_words` are alike, and no one function stands for them: `join` writes a third place of the lists, which it reads too,
// and `unite_words` reads the area that it writes.

// Writes the union of the set at `first` of the area and the set at `second` of the lists to `to` in the lists.
fn join(lists: &mut [u64], to: usize, area: &[u64], first: usize, second: usize, n: usize)
    requires { ((second + n ≤ to) ⊎ (to + n ≤ second)) × (first + n ≤ length area.now) × (second + n ≤ length lists.old)
        × (to + n ≤ length lists.old) }
    ensures { lists.new ≡ joined area.now first lists.old second lists.old to n }
{
    for k in 0..n {
        let x = area[first + k];
        let y = lists[second + k];
        lists[to + k] = x | y;
    }
}

// Adds the set at `from` of the lists to the set at `at` of the area.
fn unite_kept(area: &mut [u64], at: usize, lists: &[u64], from: usize, n: usize)
    requires { (at + n ≤ length area.old) × (from + n ≤ length lists.now) }
    ensures { area.new ≡ joined area.old at lists.now from area.old at n }
{
    for k in 0..n {
        let x = area[at + k];
        let y = lists[from + k];
        area[at + k] = x | y;
    }
}

// Whether k, which has this mark, is a link that was not met before.
fn is_new(k: usize, mark: u16) -> bool
    ensures { (marks : List ℕ) → get_or marks k 0 ≡ mark → result ≡ unmet marks k }
{
    (k != 0) & (mark == 0)
}

// ---- Unions of lists

// A bundle, the number of the term whose set is being written, of n words, and what is known of lists. A clause sees no links: what is known of them is
// so by type.
#[derive(Drop)]
pub struct Uniting<'a> {
    bundle: &'a Bundle<'a>,
    n: usize,
    t: usize,
    lists: &'a mut [u64],
    marks: &'a mut [u16],
}

impl<'a> Model for Uniting<'a> {
    ghost use Rattle.unions.specs.Unions.{Uniting, Unions};

    ghost Value = { Uniting };

    ghost view = { λ u. record { bundle = u.bundle.now; n = u.n; t = u.t } };

    ghost invariant = { λ u. Unions u.bundle.now u.n u.t u.lists.now u.marks.now };
}

impl<'a> Uniting<'a> {
    pub fn of(
        bundle: &'a Bundle<'a>,
        n: usize,
        t: usize,
        lists: &'a mut [u64],
        marks: &'a mut [u16],
    ) -> Uniting<'a>
        requires { Unions bundle.now n t lists.old marks.old }
        ensures { result ≡ record { bundle = bundle.now; n = n; t = t } }
    {
        Uniting {
            bundle,
            n,
            t,
            lists,
            marks,
        }
    }

    // What was lent, given back: the invariant still holds of it.
    pub fn into_parts(self) -> (&'a mut [u64], &'a mut [u16])
        ensures { Unions self.entry.bundle self.entry.n self.entry.t result.0.now result.1.now }
    {
        (self.lists, self.marks)
    }

    pub fn bundle(&self) -> &'a Bundle<'a>
        ensures { result.now ≡ self.now.bundle }
    {
        self.bundle
    }

    // How many words a set has.
    pub fn n(&self) -> usize
        ensures { result ≡ self.now.n }
    {
        self.n
    }

    // The term whose set is being written.
    pub fn t(&self) -> usize
        ensures { result ≡ self.now.t }
    {
        self.t
    }

    // Goes on to the next term.
    pub fn next(&mut self)
        requires { self.old.t ≤ limits.terms }
        ensures { self.new ≡ record self.old { t = self.old.t + 1 } }
    {
        self.t += 1;
    }

    // Adds the sets of the terms of a list, one by one.
    fn unite_each(&self, area: &mut [u64], at: usize, list: usize)
        requires { SetRoom area.old self.now.n self.now.t at }
        ensures { Adds self.now area.old area.new at (items self.now.bundle list) }
    {
        for term in self.bundle.items(list) {
            unite_term(area, self.n, self.t, at, term);
        }
    }

    // Adds the sets of the first terms of a list. Gives the link that is next, 0, which is no link, where the list has ended.
    fn unite_first(&self, area: &mut [u64], at: usize, list: usize) -> usize
        requires { SetRoom area.old self.now.n self.now.t at }
        ensures { (result ≤ length self.now.bundle.links) × Partly area.old area.new self.now.n self.now.t at (items self.now.bundle list) (items self.now.bundle result) }
    {
        let mut i = self.bundle.first_link(list);
        // by link: the next one is handed on
        for _ in 0..SHORT {
            if i == 0 {
                return 0;
            }
            let term = self.bundle.link_field(i, 0);
            unite_term(area, self.n, self.t, at, term);
            i = self.bundle.next_link(i);
        }
        i
    }

    // Walks from a link to the first that is known, and marks each link on the way with the one before it. Gives the last that is not known, 0 where
    // `start` is known.
    fn walk_out(&mut self, start: usize) -> usize
        requires { start ≤ length self.old.bundle.links }
        ensures { (result ≤ length self.old.bundle.links) × (self.new ≡ self.old) }
    {
        let _links = self.bundle.links(); // at most 2,048: each link fits a mark
        let mut last = 0;
        let mut i = start;
        // by link: each is marked
        while !is_known(i, self.marks[i]) {
            self.marks[i] = last as u16;
            last = i;
            i = self.bundle.next_link(i);
        }
        last
    }

    // Makes link k known, if the link after it is, and its term is below t. Gives the link that was before it on the walk, 0 if it was the first, as marks
    // have it.
    fn learn_link(&mut self, area: &[u64], k: usize) -> usize
        requires { SetsBelow area.now self.old.n self.old.t self.old.bundle × (1 ≤ k) × (k ≤ length self.old.bundle.links) }
        ensures { (result < k) × (self.new ≡ self.old) }
    {
        let n = self.n;
        let term = self.bundle.link_field(k, 0);
        let next = self.bundle.next_link(k);
        let before = usize::from(self.marks[k]);
        if before >= k {
            return 0;
        }
        if !is_lower(self.t, term) {
            return 0;
        }
        if !is_known(next, self.marks[next]) {
            return 0;
        }
        join(self.lists, n * k, area, n * (term - 1), n * next, n);
        self.marks[k] = KNOWN;
        before
    }

    // Walks back from a link, and makes each link on the way known.
    fn walk_back(&mut self, area: &[u64], last: usize)
        requires { SetsBelow area.now self.old.n self.old.t self.old.bundle × (last ≤ length self.old.bundle.links) }
        ensures { self.new ≡ self.old }
    {
        let mut k = last;
        // by link, back along the marks
        while k != 0 {
            k = self.learn_link(area, k);
        }
    }

    // Adds the sets of the terms of the list that starts at link i, if it is known. Says whether it is.
    fn unite_known(&self, area: &mut [u64], at: usize, i: usize) -> bool
        requires { SetRoom area.old self.now.n self.now.t at × SetsBelow area.old self.now.n self.now.t self.now.bundle × (i ≤ length self.now.bundle.links) }
        ensures { (result ≡ true → Adds self.now area.old area.new at (items self.now.bundle i)) × (result ≡ false → area.new ≡ area.old) }
    {
        let n = self.n;
        if !is_known(i, self.marks[i]) {
            return false;
        }
        let lists = &*self.lists;
        unite_kept(area, at, lists, n * i, n);
        true
    }

    // Adds the sets of the terms of the list that starts at link i, which was met before. Each link of it is made known; where a term is not
    // below t, which no file that passes check 7 has, they are added one by one.
    fn unite_met(&mut self, area: &mut [u64], at: usize, i: usize)
        requires { SetRoom area.old self.old.n self.old.t at × SetsBelow area.old self.old.n self.old.t self.old.bundle × (i ≤ length self.old.bundle.links) }
        ensures put { Adds self.old area.old area.new at (items self.old.bundle i) }
        ensures same { self.new ≡ self.old }
    {
        let last = self.walk_out(i);
        self.walk_back(area, last);
        if !self.unite_known(area, at, i) {
            self.unite_each(area, at, i);
        }
    }

    // Adds the sets of the terms of the list that starts at link `start`, up to a link that was met before. Gives that link, 0 where the list has
    // ended. So a list that no other shares is walked once.
    fn unite_new(&mut self, area: &mut [u64], at: usize, start: usize) -> usize
        requires { SetRoom area.old self.old.n self.old.t at × (start ≤ length self.old.bundle.links) }
        ensures fact { (result ≤ length self.old.bundle.links) × Partly area.old area.new self.old.n self.old.t at (items self.old.bundle start) (items self.old.bundle result) }
        ensures same { self.new ≡ self.old }
    {
        let mut i = start;
        // by link: each is marked
        while is_new(i, self.marks[i]) {
            let term = self.bundle.link_field(i, 0);
            unite_far(area, self.n, self.t, at, term);
            self.marks[i] = MET;
            i = self.bundle.next_link(i);
        }
        i
    }

    // Adds the sets of the terms of the list that starts at link i: up to a link that was met before one by one, then by what is known. Of one shape with
    // `unite_list`, and no more: that one looks at no mark.
    fn unite_rest(&mut self, area: &mut [u64], at: usize, i: usize)
        requires { SetRoom area.old self.old.n self.old.t at × SetsBelow area.old self.old.n self.old.t self.old.bundle × (i ≤ length self.old.bundle.links) }
        ensures put { Adds self.old area.old area.new at (items self.old.bundle i) }
        ensures same { self.new ≡ self.old }
    {
        let met = self.unite_new(area, at, i);
        if met != 0 {
            self.unite_met(area, at, met);
        }
    }

    // Adds the sets of the terms of a list to the set at word `at`, that of the term.
    pub fn unite_list(&mut self, area: &mut [u64], at: usize, list: usize)
        requires { SetRoom area.old self.old.n self.old.t at × SetsBelow area.old self.old.n self.old.t self.old.bundle }
        ensures put { Adds self.old area.old area.new at (items self.old.bundle list) }
        ensures same { self.new ≡ self.old }
    {
        let rest = self.unite_first(area, at, list);
        if rest != 0 {
            self.unite_rest(area, at, rest);
        }
    }
}
