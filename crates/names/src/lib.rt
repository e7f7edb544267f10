// Which variables keep their names: decided from the job before the visit, in one pass over its term records.
#![tactic(auto)]

ghost use Rattle.std.specs.Prelude.{◌≡◌, ℕ, cond, ◌≤◌, length, eqb};
ghost use Rattle.bundle.specs.Bundle.{term_of};
ghost use Rattle.bundle.specs.Links.{items};
ghost use Rattle.bundle.specs.Limits.{limits};
ghost use Rattle.bundle.specs.Lists.{has};
ghost use Rattle.expansion.specs.Names.{keeps};
ghost use Rattle.names.specs.Marks.{is_once, bound_again, kept_in, mark_at, after_term, mark_of};

use bundle::Bundle;
use expansion::Names;
use logic::kinds::{Kind, is_binder};

// What the binders and lets of a job make of a variable.
#[derive(Clone, Copy)]
pub enum Mark {
    // No record binds it, and no let lists it.
    Unbound,
    // One record binds it, and no let lists it.
    Once,
    // More records than one bind it, or a let lists it.
    Renamed,
}

impl Mark {
    fn is_once(self) -> bool
        ensures { result ≡ is_once self }
    {
        match self {
            Mark::Once => true,
            Mark::Unbound => false,
            Mark::Renamed => false,
        }
    }

    // The mark where one record more binds the variable.
    fn bound_again(self) -> Mark
        ensures { result ≡ bound_again self }
    {
        match self {
            Mark::Unbound => Mark::Once,
            Mark::Once => Mark::Renamed,
            Mark::Renamed => Mark::Renamed,
        }
    }
}

// For each number of a variable, what the binders and lets of a job make of it.
#[derive(Drop)]
pub struct Kept {
    marks: [Mark; Bundle::VARIABLES + 1],
}

impl Kept {
    // Decided from the job, by all of its term records. Where all are renamed, none is looked at.
    #[tactic(auto, using(crate::proofs::Marks::kept_marked, crate::proofs::Marks::none_kept))]
    pub fn of(bundle: &Bundle, names: Names) -> Kept
        ensures { (x : ℕ) → x ≤ limits.variables → kept_in result x ≡ keeps names bundle.now x }
    {
        match names {
            Names::Keep => Kept::marked(bundle),
            Names::RenameAll => Kept::none(),
        }
    }

    // Whether variable x is kept. A number past the limit is no variable's.
    pub fn keeps(&self, x: usize) -> bool
        ensures { result ≡ kept_in self.now x }
    {
        if x > Bundle::VARIABLES {
            return false;
        }
        self.marks[x].is_once()
    }

    // No variable is marked.
    fn none() -> Kept
        ensures { (x : ℕ) → x ≤ limits.variables → mark_at result x ≡ Mark.Unbound }
    {
        Kept {
            marks: [Mark::Unbound; Bundle::VARIABLES + 1],
        }
    }

    // The marks of all terms.
    fn marked(bundle: &Bundle) -> Kept
        ensures { (x : ℕ) → x ≤ limits.variables → mark_at result x ≡ mark_of bundle.now (length bundle.now.terms) x }
    {
        let mut kept = Kept::none();
        for t in 1..bundle.terms() + 1 {
            kept.mark_term(bundle, t);
        }
        kept
    }

    // The marks where term t comes to those before it.
    fn mark_term(&mut self, bundle: &Bundle, t: usize)
        ensures { (x : ℕ) → x ≤ limits.variables → mark_at self.new x ≡ after_term bundle.now (term_of bundle.now t) x (mark_at self.old x) }
    {
        let kind = bundle.term_field(t, 0);
        let first = bundle.term_field(t, 1);
        if is_binder(kind) {
            self.bind(first);
        } else if kind == Kind::Let.number() {
            self.list_all(bundle, first);
        }
    }

    // One record more binds variable x. A number past the limit is no variable's.
    fn bind(&mut self, x: usize)
        ensures { (y : ℕ) → y ≤ limits.variables → mark_at self.new y ≡ cond (eqb x y) (bound_again (mark_at self.old y)) (mark_at self.old y) }
    {
        if x <= Bundle::VARIABLES {
            self.marks[x] = self.marks[x].bound_again();
        }
    }

    // A let lists the variables of its list.
    fn list_all(&mut self, bundle: &Bundle, list: usize)
        ensures { (y : ℕ) → y ≤ limits.variables → mark_at self.new y ≡ cond (has y (items bundle.now list)) Mark.Renamed (mark_at self.old y) }
    {
        for x in bundle.items(list) {
            self.list(x);
        }
    }

    // A let lists variable x. A number past the limit is no variable's.
    fn list(&mut self, x: usize)
        ensures { (y : ℕ) → y ≤ limits.variables → mark_at self.new y ≡ cond (eqb y x) Mark.Renamed (mark_at self.old y) }
    {
        if x <= Bundle::VARIABLES {
            self.marks[x] = Mark::Renamed;
        }
    }
}
