// SKO: a variable that a quantifier binds is replaced by a choice. One premise carries the quantifier's body to the right side.
ghost use Rattle.std.specs.Prelude.{◌≡◌};
ghost use Rattle.bundle.specs.RecordWords.{as_step};
ghost use Rattle.images.specs.LentReading.{step_in};
ghost use Rattle.logic.specs.Named.{binder_in};
ghost use Rattle.logic.specs.Rules.{is_choice, is_negation, is_witness, sko_tests_by};
ghost use Rattle.logic.specs.Tests.{passed};

use bundle::Bundle;
use bundle::records::StepWords;
use logic::kinds::{Binder, Entry, Kind};
use premises::Taken;

// The symbol "not".
const NOT: usize = 3;

// Whether term t is the choice of x in the term u.
#[tactic(auto, unfolding(logic::specs::Rules::is_choice))]
fn is_choice(bundle: &Bundle, t: usize, x: usize, u: usize) -> bool
    ensures { result ≡ is_choice bundle.now t x u }
{
    let kind = bundle.term_field(t, 0);
    let variable = bundle.term_field(t, 1);
    let body = bundle.term_field(t, 2);
    (kind == Binder::Choice.number()) & (variable == x) & (body == u)
}

// Whether term t is "not" over the term u.
#[tactic(auto, unfolding(logic::specs::Rules::is_negation))]
fn is_negation(bundle: &Bundle, t: usize, u: usize) -> bool
    ensures { result ≡ is_negation bundle.now t u }
{
    let kind = bundle.term_field(t, 0);
    let symbol = bundle.term_field(t, 1);
    let arguments = bundle.term_field(t, 2);
    let one_argument = bundle.is_single(arguments);
    let argument = bundle.first_item(arguments);
    (kind == Kind::Application.number()) & (symbol == NOT) & one_argument & (argument == u)
}

// Whether term t is the choice that takes the place of x where a quantifier binds x in the term u: the choice of x in u for an exists, in not(u) for a
// for-all. A choice is not taken away.
#[tactic(auto, unfolding(logic::specs::Rules::is_witness))]
fn is_witness(quantifier: Binder, bundle: &Bundle, t: usize, x: usize, u: usize) -> bool
    ensures { result ≡ is_witness (binder_in quantifier) bundle.now t x u }
{
    match quantifier {
        Binder::ForAll => {
            let body = bundle.term_field(t, 2);
            let of_body = is_choice(bundle, t, x, body);
            let negated = is_negation(bundle, body, u);
            of_body & negated
        }
        Binder::Exists => is_choice(bundle, t, x, u),
        Binder::Choice => false,
    }
}

// The premise carries the body to the right side, in a context that replaces the variable alone, by the choice, and whose parent is the step's. Out of
// line: steps of the other rules are judged where it is called.
#[inline(never)]
pub fn sko_holds(quantifier: Binder, taken: &Taken, s: StepWords) -> bool
    ensures { result ≡ passed (sko_tests_by (binder_in quantifier) (step_in taken.now.bundle taken.now.bed) taken.now.bundle (as_step s)) }
{
    let bundle = taken.bundle();
    let home = s.context;
    let left = s.left;
    let right = s.right;
    let premises = s.premises;
    let kind = bundle.term_field(left, 0);
    let x = bundle.term_field(left, 1);
    let body = bundle.term_field(left, 2);
    let premise = bundle.first_item(premises);
    let inner = taken.field(premise, 1);
    let from = taken.field(premise, 2);
    let to = taken.field(premise, 3);
    let inner_kind = bundle.context_field(inner, 0);
    let variables = bundle.context_field(inner, 1);
    let terms = bundle.context_field(inner, 2);
    let parent = bundle.context_field(inner, 3);
    let one_variable = bundle.is_single(variables);
    let variable = bundle.first_item(variables);
    let one_term = bundle.is_single(terms);
    let term = bundle.first_item(terms);
    let by_choice = is_witness(quantifier, bundle, term, x, body);
    (kind == quantifier.number())
        & (from == body)
        & (to == right)
        & (inner_kind == Entry::Replaces.number())
        & one_variable
        & (variable == x)
        & one_term
        & by_choice
        & (parent == home)
}
