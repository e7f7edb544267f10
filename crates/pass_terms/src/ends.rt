// Terms placed where a formula ends: its parts are taken off the stack, and it stands there.
ghost use Rattle.std.specs.Prelude.{IfSome, ◌≡◌, ℕ, ◌≤◌, ◌<◌, length};
ghost use Rattle.bundle.specs.Words.{largest_word};
ghost use Rattle.pass_tokens.specs.declared.Meaning.TheVariants.{Variable, Symbol};
ghost use Rattle.pass_terms.specs.Passing.{Laid, AlonePut, ApplicationPut, BinderPut, LetPut, TruthClosed, Named};

use super::sorts::takes;
use super::stack::Stack;
use bundle::Bundle;
use filing::Filed;
use logic::kinds::Binder;
use pass_tokens::{Meaning, Text};
use placing::{place_application, place_binder, place_let, place_variable};
use scratch::pairs::{half, pack};
use sorting::sorts::{result_sort, signature_of};

// Lays the pair of a term and its sort on the stack.
fn lay(stack: &mut Stack, term: usize, sort: usize) -> Option<()>
    ensures { IfSome result (λ _. Laid stack.old term sort stack.new) }
{
    if (term > 4294967295) | (sort > 1) {
        return None;
    }
    stack.push(pack(term, sort))
}

// The symbol at the terms of the pairs above a height, where it takes their sorts.
pub fn apply(
    bundle: &Bundle,
    filed: &mut Filed<'_>,
    stack: &mut Stack,
    symbol: usize,
    height: usize,
) -> Option<()>
    requires { (symbol ≤ largest_word) × (height ≤ length stack.old) }
    ensures { IfSome result (λ _. ApplicationPut bundle.now filed.old stack.old symbol height filed.new stack.new) }
{
    let s = signature_of(bundle, symbol);
    if !takes(bundle, s, stack.above(height)) {
        return None;
    }
    let sort = result_sort(bundle, s);
    let term = place_application(filed, symbol, stack.above(height))?;
    stack.cut(height);
    lay(stack, term, sort)
}

// A word alone: a variable, or a symbol with no arguments.
pub fn place_alone(
    bundle: &Bundle,
    filed: &mut Filed<'_>,
    stack: &mut Stack,
    meaning: Meaning,
) -> Option<()>
    requires { ((n : ℕ) → meaning ≡ Variable n → n ≤ largest_word) × ((n : ℕ) → meaning ≡ Symbol n → n ≤ largest_word) }
    ensures { IfSome result (λ _. AlonePut bundle.now filed.old stack.old filed.new stack.new meaning) }
{
    match meaning {
        Meaning::Variable(x) => {
            let term = place_variable(filed, x)?;
            lay(stack, term, bundle.variable_sort(x))
        }
        Meaning::Symbol(f) => {
            let height = stack.height();
            apply(bundle, filed, stack, f, height)
        }
        Meaning::Binder(_) | Meaning::Let | Meaning::Sort(_) => None,
    }
}

// A binder of the variable x in the term on top. Its sort is truth.
pub fn place_bound(filed: &mut Filed<'_>, stack: &mut Stack, q: Binder, x: usize) -> Option<()>
    requires { x ≤ largest_word }
    ensures { IfSome result (λ _. BinderPut filed.old stack.old q x filed.new stack.new) }
{
    let body = half(stack.pop()?, true);
    let term = place_binder(filed, q, x, body)?;
    lay(stack, term, 0)
}

// The closing bracket of a quantifier, whose body stands on top and is of the sort truth.
pub fn closed_truth(text: &mut Text<'_>, stack: &Stack) -> Option<()>
    ensures { IfSome result (λ _. TruthClosed text.old stack.now text.new) }
{
    if half(stack.top()?, false) != 0 {
        return None;
    }
    text.close()
}

// A pair of a let up to its closing bracket: the term on top is bound to the variable x of its sort.
pub fn name_pair(bundle: &Bundle, text: &mut Text<'_>, stack: &mut Stack, x: usize) -> Option<()>
    requires { x ≤ largest_word }
    ensures { IfSome result (λ _. Named bundle.now text.old stack.old x text.new stack.new) }
{
    let pair = stack.pop()?;
    if bundle.variable_sort(x) != half(pair, false) {
        return None;
    }
    stack.push(pack(half(pair, true), x))?;
    text.close()
}

// A let up to its closing bracket: its body stands on top, and below it its pairs, above a height.
pub fn place_named(
    text: &mut Text<'_>,
    filed: &mut Filed<'_>,
    stack: &mut Stack,
    height: usize,
) -> Option<()>
    requires { height < length stack.old }
    ensures { IfSome result (λ _. LetPut text.old filed.old stack.old height text.new filed.new stack.new) }
{
    text.close()?;
    let body = stack.pop()?;
    let term = place_let(filed, half(body, true), stack.above(height))?;
    stack.cut(height);
    lay(stack, term, half(body, false))
}
