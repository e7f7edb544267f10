// A context's entries, from the context up to the empty one: what they mention, and where they end. A parent that is not lower, which check 10 refuses,
// ends a walk.
ghost use Rattle.std.specs.Prelude.{IfSome, ◌≡◌, false, ◌<◌};
ghost use Rattle.bundle.specs.Bundle.{context_of};
ghost use Rattle.logic.specs.Contexts.{Mentioned};

use bundle::Bundle;
use free_variables::term_sets::TermSets;
use logic::kinds::Entry;

// Whether the entry of context c fixes x or replaces it. One that it does not mention is mentioned above it, or not at all.
fn entry_mentions(bundle: &Bundle, c: usize, x: usize) -> bool
    ensures { result ≡ false → Mentioned bundle.now c x → Mentioned bundle.now (context_of bundle.now c).parent x }
{
    let kind = bundle.context_field(c, 0);
    let first = bundle.context_field(c, 1);
    match Entry::of(kind) {
        Some(Entry::Fixes) => first == x,
        Some(Entry::Replaces) => bundle.has_item(first, x),
        None => false,
    }
}

// The parent of context c, where it is lower.
fn above(bundle: &Bundle, c: usize) -> Option<usize>
    ensures { IfSome result (λ p. (p ≡ (context_of bundle.now c).parent) × (p < c)) }
{
    let parent = bundle.context_field(c, 3);
    if parent < c { Some(parent) } else { None }
}

// Whether an entry of a context mentions x. Where it says no, none does.
pub fn mentions(bundle: &Bundle, context: usize, x: usize) -> bool
    ensures { result ≡ false → Mentioned bundle.now context x → ⊥ }
{
    let mut c = context;
    // No `for`: each context names its parent.
    while c != 0 {
        if entry_mentions(bundle, c, x) {
            return true;
        }
        let Some(parent) = above(bundle, c) else {
            return true;
        };
        c = parent;
    }
    false
}

// ---- Up to the empty context

// How many entries a context has, and its last, whose parent is the empty context.
#[derive(Clone, Copy)]
pub struct Chain {
    pub entries: usize,
    pub last: usize,
}

// The empty context has none.
pub fn chain_of(bundle: &Bundle, context: usize) -> Option<Chain> {
    let mut entries = 0;
    let mut last = None;
    let mut c = context;
    // No `for`: each context names its parent.
    while c != 0 {
        entries += 1;
        last = Some(c);
        c = above(bundle, c).unwrap_or(0);
    }
    Some(Chain {
        entries,
        last: last?,
    })
}

// Whether x is free in a term of a list.
fn free_in_some(sets: &TermSets, list: usize, x: usize) -> bool {
    sets.bundle().items(list).any(|t| sets.is_free(t, x))
}

// The nearest entry that replaces by a term in which x is free.
pub fn replacer(sets: &TermSets, context: usize, x: usize) -> Option<usize> {
    let bundle = sets.bundle();
    let mut c = context;
    // No `for`: each context names its parent.
    while c != 0 {
        let replaces = Entry::of(bundle.context_field(c, 0)) == Some(Entry::Replaces);
        if replaces && free_in_some(sets, bundle.context_field(c, 2), x) {
            return Some(c);
        }
        c = above(bundle, c).unwrap_or(0);
    }
    None
}
