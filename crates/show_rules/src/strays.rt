// The stray variable of a refusal by 22: it is free in a side of a step, and no entry of its context mentions it.
ghost use Rattle.std.specs.Prelude.{◌≡◌, true, IfSome};
ghost use Rattle.logic.specs.Free.{free_at};
ghost use Rattle.logic.specs.Contexts.{Mentioned};
ghost use Rattle.free_variables.specs.TermSets.{free_in};

use super::chains::{mentions, replacer};
use bundle::Bundle;
use free_variables::term_sets::TermSets;
use show_walks::area::free_sets;

// The lowest variable that is free in term t and that no entry of the context mentions.
fn stray_in(sets: &TermSets, context: usize, t: usize) -> Option<usize>
    ensures { IfSome result (λ x. (free_in sets.now t x ≡ true) × (Mentioned sets.now.bundle context x → ⊥)) }
{
    let bundle = sets.bundle();
    for x in 1..bundle.variables() + 1 {
        if sets.is_free(t, x) {
            if !mentions(bundle, context, x) {
                return Some(x);
            }
        }
    }
    None
}

// A stray variable, the side that it is free in, and the nearest entry that replaces by a term in which it is free.
#[derive(Clone, Copy)]
pub struct Stray {
    pub variable: usize,
    pub term: usize,
    pub replacer: Option<usize>,
}

fn stray_of(sets: &TermSets, context: usize, t: usize, x: usize) -> Stray
    ensures { (result.variable ≡ x) × (result.term ≡ t) }
{
    Stray {
        variable: x,
        term: t,
        replacer: replacer(sets, context, x),
    }
}

// The first stray variable of left, else of right.
pub fn find(bundle: &Bundle, context: usize, left: usize, right: usize) -> Option<Stray>
    ensures { IfSome result (λ s. (free_at bundle.now s.term s.variable ≡ true) × (Mentioned bundle.now context s.variable → ⊥)) }
{
    let area = free_sets(bundle);
    let sets = TermSets::of(bundle, &area, Bundle::SET_WORDS);
    if let Some(x) = stray_in(&sets, context, left) {
        return Some(stray_of(&sets, context, left, x));
    }
    let y = stray_in(&sets, context, right)?;
    Some(stray_of(&sets, context, right, y))
}
