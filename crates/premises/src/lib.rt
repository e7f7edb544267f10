// Earlier steps as premises: those of the file, then those of a lent bed; and the walk of CONG and LET over lists of them.
#![tactic(auto)]

ghost use Rattle.std.specs.Prelude.{◌≡◌, true, ◌||◌, eqb, ℕ, ◌+◌, ◌*◌, ◌≤◌, ◌<◌, length};
ghost use Rattle.bundle.specs.Limits.{limits};
ghost use Rattle.bundle.specs.Bundle.{Step, link_of, step_of, step_field};
ghost use Rattle.bundle.specs.Links.{items};
ghost use Rattle.logic.specs.Rules.{carries, walk_by};
ghost use Rattle.images.specs.LentReading.{step_in};
ghost use Rattle.premises.specs.Counted.{after};
ghost use Rattle.premises.specs.Taken.{Taken};

use bundle::Bundle;
use bundle::items::followed;
use bundle::words::wide;
use logic::Walk;
use std::marker::Model;

// The steps that a step may refer to: the file's come first, then those of the bed. The batch check has its steps in the file and no bed, a running check
// has none in the file.
#[derive(Drop)]
pub struct Taken<'a> {
    bundle: &'a Bundle<'a>,
    bed: &'a [u32],
}

impl<'a> Model for Taken<'a> {
    ghost use Rattle.premises.specs.Taken.{Taken};

    ghost Value = { Taken };

    ghost view = { λ t. record { bundle = t.bundle.now; bed = t.bed.now } };
}

// Whether step p of the file carries l to r in the context.
fn record_carries(bundle: &Bundle, p: usize, context: usize, l: usize, r: usize) -> bool
    requires { (p ≡ 0 → ⊥) × (p ≤ length bundle.now.steps) }
    ensures { result ≡ carries (step_of bundle.now p) context l r }
{
    let step = bundle.step(p);
    (step.context == context) & (step.left == l) & (step.right == r)
}

// A link that a walk has read: its item, its next, and how many links the walk has read with it.
#[derive(Clone, Copy)]
struct Read {
    value: usize,
    next: usize,
    links: usize,
}

// Reads link i, after so many others. A walk reads links here and nowhere else, so it counts each.
fn read_link(bundle: &Bundle, i: usize, links: usize) -> Read
    requires { (i ≡ 0 → ⊥) × (i ≤ length bundle.now.links) × (links ≤ 3 * limits.links) }
    ensures { let link = link_of bundle.now i in
        (result.value ≡ link.value) × (result.next ≡ link.next) × (result.links ≡ links + 1) }
{
    let link = bundle.link(i);
    Read {
        value: link.value,
        next: link.next,
        links: links + 1,
    }
}

// The end of a walk that has read so many links, where one list has ended at least: what is left of the lists starts at the links i, j and k. No value is
// missing where `body` is false.
fn end_walk(bundle: &Bundle, body: bool, i: usize, j: usize, k: usize, read: usize) -> Walk
    requires { (i ≤ length bundle.now.links) × (j ≤ length bundle.now.links) × (k ≤ length bundle.now.links) × (read ≤ 3 * limits.links)
        × (((eqb i 0 || eqb j 0) || eqb k 0) ≡ true) }
    ensures { (step : ℕ → Step) (c : ℕ) → result ≡ after read (walk_by step body c (items bundle.now i) (items bundle.now j) (items bundle.now k)) }
{
    if (i != 0) | (j != 0) {
        return Walk {
            passes: false,
            links: read,
        };
    }
    if !body {
        return Walk {
            passes: k == 0,
            links: read,
        };
    }
    if k == 0 {
        return Walk {
            passes: false,
            links: read,
        };
    }
    let links = bundle.links();
    let last = read_link(bundle, k, read);
    let more = followed(links, k, last.next);
    Walk {
        passes: more == 0,
        links: last.links,
    }
}

impl<'a> Taken<'a> {
    pub fn of(bundle: &'a Bundle<'a>, bed: &'a [u32]) -> Taken<'a>
        ensures { result ≡ record { bundle = bundle.now; bed = bed.now } }
    {
        Taken { bundle, bed }
    }

    pub fn bundle(&self) -> &'a Bundle<'a>
        ensures { result.now ≡ self.now.bundle }
    {
        self.bundle
    }

    // Field k of step p; 0 of a step that is not there, as the definitions have it.
    pub fn field(&self, p: usize, k: usize) -> usize
        requires { k < 5 }
        ensures { result ≡ step_field (step_in self.now.bundle self.now.bed p) k }
    {
        let steps = self.bundle.steps();
        if p <= steps {
            return self.bundle.step_field(p, k);
        }
        let j = p - steps - 1;
        if j < self.bed.len() / 5 {
            return wide(self.bed[5 * j + k]);
        }
        0
    }

    // Whether step p carries l to r in the context. Every rule reads earlier steps here or by `field`.
    pub fn carries(&self, p: usize, context: usize, l: usize, r: usize) -> bool
        ensures { result ≡ carries (step_in self.now.bundle self.now.bed p) context l r }
    {
        let steps = self.bundle.steps();
        if (0 < p) & (p <= steps) {
            return record_carries(self.bundle, p, context, l, r);
        }
        let in_context = self.field(p, 1);
        let left = self.field(p, 2);
        let right = self.field(p, 3);
        (in_context == context) & (left == l) & (right == r)
    }

    // THE WALK of CONG and of LET: whether the premises carry the terms of one list to those of another in the context, one for each, in order, and where
    // `body` says so there is one premise more; and how many links that reads. One pass: at each turn a link of each list, and the premise's record.
    pub fn walk(
        &self,
        body: bool,
        context: usize,
        lefts: usize,
        rights: usize,
        premises: usize,
    ) -> Walk
        ensures { let b = self.now.bundle in
            result ≡ walk_by (step_in b self.now.bed) body context (items b lefts) (items b rights) (items b premises) }
    {
        let bundle = self.bundle;
        let links = bundle.links();
        let mut i = bundle.first_link(lefts);
        let mut j = bundle.first_link(rights);
        let mut k = bundle.first_link(premises);
        let mut read = 0;
        // By link numbers, not items: what is left of the lists goes to `end_walk`, and each link that is read counts.
        while (i != 0) & (j != 0) & (k != 0) {
            let l = read_link(bundle, i, read);
            let r = read_link(bundle, j, l.links);
            let p = read_link(bundle, k, r.links);
            read = p.links;
            i = followed(links, i, l.next);
            j = followed(links, j, r.next);
            k = followed(links, k, p.next);
            if !self.carries(p.value, context, l.value, r.value) {
                return Walk {
                    passes: false,
                    links: read,
                };
            }
        }
        end_walk(bundle, body, i, j, k, read)
    }
}
