// Records and lists appended where their section has room, and terms looked up before they are appended, each against its definition without
// limits. `None` as soon as a section would pass its limit.
#![tactic(auto)]

ghost use Rattle.std.specs.Prelude.{◌≡◌, true, false, ℕ, [], ◌∷◌, suc, ◌≤◌, ◌<◌, length};
ghost use Rattle.bundle.specs.Words.{largest_word};
ghost use Rattle.bundle.specs.RecordWords.{as_term, as_context, as_step, TermFits, ContextFits, StepFits};
ghost use Rattle.logic.specs.Terms.{number_of};
ghost use Rattle.logic.specs.Named.{binder_in, kind_in};
ghost use Rattle.logic.specs.Longer.{with_terms, with_contexts, with_steps, add_list, list_start};
ghost use Rattle.scratch.specs.Stack.{halves_of};
ghost use Rattle.filing.specs.Filing.{Digested, found};
ghost use Rattle.expansion.specs.Placed.{placed, place_variable, place_application, place_binder, place_let};
ghost use Rattle.expansion.specs.Visit.{fresh, named};
ghost use Rattle.placing.specs.Outcomes.{VisitOutcome, OpenOutcome, PlaceOutcome, AddOutcome};

use bundle::Bundle;
use bundle::digests::Digest;
use bundle::records::{ContextWords, StepWords, TermWords};
use filing::Filed;
use filing::digests::{mixed_halves, pairs_digest, root_digest};
use logic::kinds::{Binder, Kind};
use scratch::appends::Appends;

// What a visit to a term gives: the result's term, and the step that carries the term to it.
#[derive(Clone, Copy)]
pub struct Visited {
    pub result: usize,
    pub step: usize,
}

// What the opener of a binder gives: the context of the body, and the variable that the result binds.
#[derive(Clone, Copy)]
pub struct Opened {
    pub context: usize,
    pub variable: usize,
}

// ---- One list or one record appended, where its section has room: its first link, or its number. Words are `usize` (see crate `scratch`, appends.rt).
// All but a term go to a scratch, filed or not. Alike, each with its own section, limit and outcome: one for all would take these and the append.

// The upper halves of pairs, or the lower, as a list.
pub fn add_halves<S: Appends>(scratch: &mut S, pairs: &[u64], upper: bool) -> Option<usize>
    ensures { AddOutcome (S.bundle scratch.old) (halves_of upper pairs.now) (S.bundle scratch.new) result }
{
    let counts = scratch.counts();
    if pairs.len() > Bundle::LINKS - counts.links {
        return None;
    }
    Some(scratch.push_halves(pairs, upper))
}

// One value, as a list.
pub fn add_value<S: Appends>(scratch: &mut S, value: usize) -> Option<usize>
    requires { value ≤ largest_word }
    ensures { AddOutcome (S.bundle scratch.old) (value ∷ []) (S.bundle scratch.new) result }
{
    let counts = scratch.counts();
    if counts.links >= Bundle::LINKS {
        return None;
    }
    Some(scratch.push_one(value))
}

// A term, filed by its digest, which is d.
pub fn add_term(filed: &mut Filed<'_>, term: TermWords, d: Digest) -> Option<usize>
    requires { TermFits term × Digested filed.old (as_term term) d }
    ensures { PlaceOutcome
        (record { bundle = with_terms filed.old (as_term term ∷ []); term = suc (length filed.old.terms) }) filed.new result }
{
    let counts = filed.counts();
    if counts.terms >= Bundle::TERMS {
        return None;
    }
    filed.append_term(term, d);
    Some(counts.terms + 1)
}

// A term whose second field is the list of the upper halves of pairs, which is appended before it. d is the digest of the term.
fn add_listed_term(
    filed: &mut Filed<'_>,
    kind: Kind,
    first: usize,
    pairs: &[u64],
    third: usize,
    d: Digest,
) -> Option<usize>
    requires { (first ≤ largest_word) × (third ≤ largest_word)
        × Digested (add_list filed.old (halves_of true pairs.now))
        (record { kind = number_of (kind_in kind); a = first; b = list_start filed.old (halves_of true pairs.now); c = third }) d }
    ensures { PlaceOutcome
        (record {
          bundle = with_terms (add_list filed.old (halves_of true pairs.now))
              (record { kind = number_of (kind_in kind); a = first; b = list_start filed.old (halves_of true pairs.now); c = third } ∷ []);
          term = suc (length filed.old.terms);
        }) filed.new result }
{
    let second = add_halves(filed, pairs, true)?;
    add_term(
        filed,
        TermWords {
            kind: kind.number(),
            first,
            second,
            third,
        },
        d,
    )
}

pub fn add_context<S: Appends>(scratch: &mut S, context: ContextWords) -> Option<usize>
    requires { ContextFits context }
    ensures { OpenOutcome
        (record {
          bundle = with_contexts (S.bundle scratch.old) (as_context context ∷ []);
          context = suc (length (S.bundle scratch.old).contexts);
        }) (S.bundle scratch.new) result }
{
    let counts = scratch.counts();
    if counts.contexts >= Bundle::CONTEXTS {
        return None;
    }
    scratch.append_context(context);
    Some(counts.contexts + 1)
}

pub fn add_step<S: Appends>(scratch: &mut S, step: StepWords) -> Option<Visited>
    requires { StepFits step }
    ensures { VisitOutcome
        (record {
          bundle = with_steps (S.bundle scratch.old) (as_step step ∷ []);
          result = step.right;
          step = suc (length (S.bundle scratch.old).steps);
        }) (S.bundle scratch.new) result }
{
    let counts = scratch.counts();
    if counts.steps >= Bundle::STEPS {
        return None;
    }
    scratch.append_step(step);
    Some(Visited {
        result: step.right,
        step: counts.steps + 1,
    })
}

// ---- A term looked up before it is appended: its number.

// Term t was found, and nothing is appended. The counts are within the limits.
fn keep(filed: &Filed<'_>, t: usize) -> Option<usize>
    ensures { PlaceOutcome (record { bundle = filed.now; term = t }) filed.now result }
{
    prove!(filed.scratch().counts().terms <= Bundle::TERMS);
    Some(t)
}

// Of a term with no list, by what was found of it; d is its digest.
fn place_plain(
    filed: &mut Filed<'_>,
    known: Option<usize>,
    term: TermWords,
    d: Digest,
) -> Option<usize>
    requires { TermFits term × Digested filed.old (as_term term) d }
    ensures { (n : ℕ) → known ≡ found n → PlaceOutcome (placed filed.old (add_list filed.old []) (as_term term) n) filed.new result }
{
    match known {
        Some(n) => keep(filed, n),
        None => add_term(filed, term, d),
    }
}

// Of a symbol at the upper halves of pairs.
pub fn place_application(filed: &mut Filed<'_>, symbol: usize, arguments: &[u64]) -> Option<usize>
    requires { symbol ≤ largest_word }
    ensures { PlaceOutcome (place_application filed.old symbol (halves_of true arguments.now)) filed.new result }
{
    let root = root_digest(Kind::Application.number(), symbol);
    let d = mixed_halves(root, arguments, true);
    if let Some(t) = filed.view().find_application(d, symbol, arguments) {
        return keep(filed, t);
    }
    add_listed_term(filed, Kind::Application, symbol, arguments, 0, d)
}

// Of the variable y.
pub fn place_variable(filed: &mut Filed<'_>, y: usize) -> Option<usize>
    requires { y ≤ largest_word }
    ensures { PlaceOutcome (place_variable filed.old y) filed.new result }
{
    let kind = Kind::Variable.number();
    let d = root_digest(kind, y);
    let known = filed.view().find_variable(d, y);
    place_plain(
        filed,
        known,
        TermWords {
            kind,
            first: y,
            second: 0,
            third: 0,
        },
        d,
    )
}

// Of a new variable of the sort of x.
fn place_fresh(filed: &mut Filed<'_>, x: usize) -> Option<usize>
    ensures { PlaceOutcome (fresh filed.old x) filed.new result }
{
    let scratch = filed.scratch();
    let sort = scratch.view().variable_sort(x);
    let counts = scratch.counts();
    if counts.variables >= Bundle::VARIABLES {
        return None;
    }
    filed.append_variable(sort);
    place_variable(filed, counts.variables + 1)
}

// Of the variable that a binder's result binds: x itself where it is kept, and else a new one.
pub fn place_named(filed: &mut Filed<'_>, kept: bool, x: usize) -> Option<usize>
    requires { x ≤ largest_word }
    ensures { PlaceOutcome (named kept filed.old x) filed.new result }
{
    if kept {
        place_variable(filed, x)
    } else {
        place_fresh(filed, x)
    }
}

// Of a binder of y in the term `body`.
pub fn place_binder(filed: &mut Filed<'_>, q: Binder, y: usize, body: usize) -> Option<usize>
    requires { (y ≤ largest_word) × (body ≤ largest_word) }
    ensures { PlaceOutcome (place_binder filed.old (binder_in q) y body) filed.new result }
{
    let kind = q.number();
    let d = root_digest(kind, y);
    let known = filed.view().find_binder(d, kind, y, body);
    place_plain(
        filed,
        known,
        TermWords {
            kind,
            first: y,
            second: body,
            third: 0,
        },
        d,
    )
}

// Of a let in the term `body`: the variables are the lower halves of pairs, and the upper halves are the terms that they are bound to.
pub fn place_let(filed: &mut Filed<'_>, body: usize, pairs: &[u64]) -> Option<usize>
    requires { body ≤ largest_word }
    ensures { PlaceOutcome (place_let filed.old (halves_of false pairs.now) (halves_of true pairs.now) body) filed.new result }
{
    let d = pairs_digest(body, pairs);
    if let Some(t) = filed.view().find_let(d, body, pairs) {
        return keep(filed, t);
    }
    let variables = add_halves(filed, pairs, false)?;
    add_listed_term(filed, Kind::Let, variables, pairs, body, d)
}
