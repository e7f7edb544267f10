// What a visit opens and closes with, each against its definition without limits. `None` as soon as a section would pass its limit.
#![tactic(auto)]

ghost use Rattle.std.specs.Prelude.{◌≡◌, true, false, ℕ, List, [], ◌≤◌};
ghost use Rattle.bundle.specs.Words.{largest_word};
ghost use Rattle.bundle.specs.Bundle.{Bundle};
ghost use Rattle.logic.specs.Named.{binder_in};
ghost use Rattle.logic.specs.Contexts.{image};
ghost use Rattle.logic.specs.Longer.{add_list, list_start};
ghost use Rattle.scratch.specs.Stack.{halves_of};
ghost use Rattle.expansion.specs.Visit.{concluded, image_term, replacing, name_of, renaming, open_binder, close_application, close_binder};
ghost use Rattle.placing.specs.Outcomes.{VisitOutcome, VisitFits, OpenOutcome, BinderOutcome};

use bundle::records::{ContextWords, StepWords};
use filing::Filed;
use logic::Image;
use logic::kinds::{Binder, Entry};
use logic::rules::Rule;
use placing::{
    Opened, Visited, add_context, add_halves, add_step, add_value, place_application, place_binder,
    place_named,
};
use scratch::appends::Appends;

// ---- A list, and then a record. Words are `usize` (see crate `scratch`, appends.rt). Context and term are no struct: they stand in the order of the
// definitions, and each call would take one apart again for the step's words. What appends no term takes a scratch, filed or not.

// The step of a visit whose premises are the lower halves of pairs. The rule by number: 0 too may be given, which is no rule's, so a `Rule` would ask for
// more.
pub fn conclude<S: Appends>(
    scratch: &mut S,
    rule: usize,
    context: usize,
    left: usize,
    right: usize,
    pairs: &[u64],
) -> Option<Visited>
    requires { (rule ≤ 5) × (context ≤ largest_word) × (left ≤ largest_word) × (right ≤ largest_word) }
    ensures { VisitOutcome (concluded (S.bundle scratch.old) rule context left right (halves_of false pairs.now)) (S.bundle scratch.new) result
        × VisitFits result }
{
    let premises = add_halves(scratch, pairs, false)?;
    add_step(
        scratch,
        StepWords {
            rule,
            context,
            left,
            right,
            premises,
        },
    )
}

// A context that replaces the variables of a list by the terms ts, whose list was just appended to b: it starts at `terms`.
fn open_replacing<S: Appends>(
    scratch: &mut S,
    variables: usize,
    parent: usize,
    terms: usize,
) -> Option<usize>
    requires { (variables ≤ largest_word) × (parent ≤ largest_word) × (terms ≤ largest_word) }
    ensures { (b : Bundle) (ts : List ℕ) → S.bundle scratch.old ≡ add_list b ts → terms ≡ list_start b ts
        → OpenOutcome (replacing b variables parent ts) (S.bundle scratch.new) result }
{
    add_context(
        scratch,
        ContextWords {
            kind: Entry::Replaces.number(),
            first: variables,
            second: terms,
            parent,
        },
    )
}

// A context that replaces the variables of a list by the upper halves of pairs.
pub fn open_let<S: Appends>(
    scratch: &mut S,
    variables: usize,
    parent: usize,
    pairs: &[u64],
) -> Option<usize>
    requires { (variables ≤ largest_word) × (parent ≤ largest_word) }
    ensures { OpenOutcome (replacing (S.bundle scratch.old) variables parent (halves_of true pairs.now)) (S.bundle scratch.new) result }
{
    let terms = add_halves(scratch, pairs, true)?;
    open_replacing(scratch, variables, parent, terms)
}

// ---- Variable

// REFL from the term, which is variable x, to the image of x.
pub fn close_variable<S: Appends>(
    scratch: &mut S,
    context: usize,
    term: usize,
    x: usize,
) -> Option<Visited>
    requires { (context ≤ largest_word) × (term ≤ largest_word) }
    ensures { VisitOutcome
        (concluded (S.bundle scratch.old) 1 context term (image_term (image (S.bundle scratch.old) context x) term) []) (S.bundle scratch.new) result
        × VisitFits result }
{
    let right = match scratch.image(context, x) {
        Image::Own => term,
        Image::Gives(t) => t,
    };
    add_step(
        scratch,
        StepWords {
            rule: Rule::Refl.number(),
            context,
            left: term,
            right,
            premises: 0,
        },
    )
}

pub fn close_application(
    filed: &mut Filed<'_>,
    context: usize,
    term: usize,
    symbol: usize,
    pairs: &[u64],
) -> Option<Visited>
    requires { (context ≤ largest_word) × (term ≤ largest_word) × (symbol ≤ largest_word) }
    ensures { VisitOutcome
        (close_application context term symbol
        (record { bundle = filed.old; results = halves_of true pairs.now; steps = halves_of false pairs.now })) filed.new result
        × VisitFits result }
{
    let right = place_application(filed, symbol, pairs)?;
    conclude(filed, Rule::Cong.number(), context, term, right, pairs)
}

// The contexts of a binder of x whose result binds y, with the term t: y fixed, then x replaced by t.
fn open_renaming<S: Appends>(
    scratch: &mut S,
    x: usize,
    y: usize,
    t: usize,
    parent: usize,
) -> Option<usize>
    requires { (x ≤ largest_word) × (y ≤ largest_word) × (t ≤ largest_word) × (parent ≤ largest_word) }
    ensures { OpenOutcome (renaming (S.bundle scratch.old) x y t parent) (S.bundle scratch.new) result }
{
    let context = add_context(
        scratch,
        ContextWords {
            kind: Entry::Fixes.number(),
            first: y,
            second: 0,
            parent,
        },
    )?;
    let variables = add_value(scratch, x)?;
    let terms = add_value(scratch, t)?;
    open_replacing(scratch, variables, context, terms)
}

// The variable of the result of a binder of x: x itself where it is kept, and else one more than all there are. A word.
fn name_of(filed: &Filed<'_>, kept: bool, x: usize) -> usize
    requires { x ≤ largest_word }
    ensures { (result ≡ name_of kept filed.now x) × (result ≤ largest_word) }
{
    if kept {
        x
    } else {
        filed.scratch().variables() + 1
    }
}

// The variable of a binder's result, that one's term and the contexts.
pub fn open_binder(filed: &mut Filed<'_>, kept: bool, x: usize, parent: usize) -> Option<Opened>
    requires { (x ≤ largest_word) × (parent ≤ largest_word) }
    ensures { BinderOutcome (open_binder kept filed.old x parent) filed.new result }
{
    let variable = name_of(filed, kept, x);
    let term = place_named(filed, kept, x)?;
    let context = open_renaming(filed, x, variable, term, parent)?;
    Some(Opened { context, variable })
}

// The result of a binder's visit, which binds y in the body's result, and BIND, whose premise is the body's step.
pub fn close_binder(
    filed: &mut Filed<'_>,
    context: usize,
    term: usize,
    q: Binder,
    y: usize,
    body: Visited,
) -> Option<Visited>
    requires { (context ≤ largest_word) × (term ≤ largest_word) × (y ≤ largest_word) × (body.result ≤ largest_word)
        × (body.step ≤ largest_word) }
    ensures { VisitOutcome
        (close_binder context term (binder_in q) y (record { bundle = filed.old; result = body.result; step = body.step })) filed.new result
        × VisitFits result }
{
    let right = place_binder(filed, q, y, body.result)?;
    let premises = add_value(filed, body.step)?;
    add_step(
        filed,
        StepWords {
            rule: Rule::Bind.number(),
            context,
            left: term,
            right,
            premises,
        },
    )
}
