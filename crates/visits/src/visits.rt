// The visit to a term and the visit to a list of terms, which call on each other: the term number falls, ties by links left.
ghost use Rattle.names.specs.Marks.{kept_in};
ghost use Rattle.placing.specs.Outcomes.{TermAsks, TermGives, ListAsks, ListGives};

use bundle::Bundle;
use closers::{close_application, close_binder, close_variable, conclude, open_binder, open_let};
use filing::Filed;
use logic::kinds::Kind;
use logic::rules::Rule;
use names::Kept;
use placing::Visited;
use scratch::pairs::pack;

// Visits a term in a context: its parts in order, then its result and its step. A binder's variable is kept where `kept` says so. The stack is a
// slice with a height: words that C lends, with a place for each step, where pass_terms' `Stack` has an array of its own. It is written in two places.
#[cycle(visit_list_visit_term)]
pub fn visit_term(
    filed: &mut Filed<'_>,
    stack: &mut [u64],
    kept: &Kept,
    context: usize,
    height: usize,
    term: usize,
) -> Option<Visited>
    requires { TermAsks filed.old stack.old context height term }
    ensures { TermGives (kept_in kept.now) filed.old stack.old context height term filed.new stack.new result }
{
    let scratch = filed.scratch();
    // The counts are within the limits.
    prove!(scratch.counts().terms <= Bundle::TERMS);
    let words = scratch.view().term_words(term);
    let first = words.first;
    let second = words.second;
    match Kind::of(words.kind) {
        Some(Kind::Variable) => close_variable(filed, context, term, first),
        Some(Kind::Application) => {
            let top = visit_list(filed, stack, kept, context, height, term, second)?;
            // The pairs are on the stack.
            prove!((height <= top) & (top <= stack.len()));
            close_application(filed, context, term, first, &stack[height..top])
        }
        Some(Kind::Binder(q)) => {
            let opened = open_binder(filed, kept.keeps(first), first, context)?;
            let body = visit_term(filed, stack, kept, opened.context, height, second)?;
            close_binder(filed, context, term, q, opened.variable, body)
        }
        Some(Kind::Let) => {
            let top = visit_list(filed, stack, kept, context, height, term, second)?;
            // The pairs are on the stack.
            prove!((height <= top) & (top <= stack.len()));
            let inner = open_let(filed, first, context, &stack[height..top])?;
            let body = visit_term(filed, stack, kept, inner, top, words.third)?;
            // There is a place for the body's pair.
            prove!(top < stack.len());
            stack[top] = pack(body.result, body.step);
            conclude(
                filed,
                Rule::Let.number(),
                context,
                term,
                body.result,
                &stack[height..top + 1],
            )
        }
        // Each term that is visited has a kind.
        None => unreachable!(),
    }
}

// Visits each term of a list of the term `owner` from link `list` on, and leaves their pairs on the stack, from `height` on. Where the stack ends then.
#[cycle(visit_list_visit_term)]
pub fn visit_list(
    filed: &mut Filed<'_>,
    stack: &mut [u64],
    kept: &Kept,
    context: usize,
    height: usize,
    owner: usize,
    list: usize,
) -> Option<usize>
    requires { ListAsks filed.old stack.old context height owner list }
    ensures { ListGives (kept_in kept.now) filed.old stack.old context height owner list filed.new stack.new result }
{
    if list == 0 {
        // The counts are within the limits.
        prove!(filed.scratch().counts().terms <= Bundle::TERMS);
        return Some(height);
    }
    let scratch = filed.scratch();
    let view = scratch.view();
    let value = view.link_field(list, 0);
    let next = view.link_field(list, 1);
    let visited = visit_term(filed, stack, kept, context, height, value)?;
    // There is a place for the pair.
    prove!(height < stack.len());
    stack[height] = pack(visited.result, visited.step);
    visit_list(filed, stack, kept, context, height + 1, owner, next)
}
