// Connectives, quantifiers and lets.
ghost use Rattle.std.specs.Prelude.{IfSome, ◌≡◌, ◌&&◌, ◌≤◌, length, eqb};
ghost use Rattle.bundle.specs.Limits.{limits, set_words};
ghost use Rattle.logic.specs.Symbols.{truth_sort};
ghost use Rattle.lexing.specs.Counted.{Numbered};
ghost use Rattle.lexing.specs.Words.{connective_in};
ghost use Rattle.lexing.specs.Lexes.{lexemes_of, rest_of};
ghost use Rattle.bracketing.specs.Brackets.{after_formula, parts_from};
ghost use Rattle.bracketing.specs.Nodes.{joins, as_declared, every, bound_from, distinct, sort_from};
ghost use Rattle.node_tests.specs.Tests.{joins_by, fresh_from};

use bracketing::brackets::{after_formula, after_name, part_at};
use bracketing::sorts::{said_at, sort_at, variable_at};
use bundle::Bundle;
use lexing::lexemes::after_lexeme;
use lexing::words::Connective;
use sets::{insert, member};

// ---- Connectives

// Whether the sorts of two formulas are joined, by = or by another connective: = joins items where the first is one, and else truths.
pub fn joined_fine(bundle: &Bundle, equal: bool, text: &[u8]) -> bool
    ensures { result ≡ joins_by equal (sort_from bundle.now (lexemes_of text.now)) (sort_from bundle.now (after_formula (lexemes_of text.now))) }
{
    let s = sort_at(bundle, text);
    let t = sort_at(bundle, after_formula(text));
    if equal & (s != 0) {
        return (1 == s) & (1 == t);
    }
    (0 == s) & (0 == t)
}

// Whether a connective joins the sorts of the two formulas that follow it.
pub fn connective_fine(bundle: &Bundle, connective: Connective, text: &[u8]) -> bool
    ensures { result ≡ joins (connective_in connective) (sort_from bundle.now (lexemes_of text.now))
        (sort_from bundle.now (after_formula (lexemes_of text.now))) }
{
    joined_fine(bundle, matches!(connective, Connective::Equal), text)
}

// ---- Quantifiers

// Whether the variable of the pair at the front has the sort that is said there; 0 where there is none of them, as the definition has it.
fn as_declared(bundle: &Bundle, text: &[u8]) -> bool
    ensures { result ≡ as_declared bundle.now (lexemes_of text.now) }
{
    let sort = match variable_at(bundle.variables(), text) {
        Some(x) => bundle.variable_sort(x),
        None => 0,
    };
    let said = match said_at(after_name(text)) {
        Some(s) => s.number(),
        None => 0,
    };
    sort == said
}

// Whether so for all pairs of a text up to the closing bracket.
fn all_declared(bundle: &Bundle, text: &[u8]) -> bool
    ensures { result ≡ every (parts_from (as_declared bundle.now) (lexemes_of text.now)) }
{
    let mut rest = text;
    // No `for`: a turn goes on behind a pair.
    while part_at(rest) {
        if !as_declared(bundle, rest) {
            return false;
        }
        rest = after_formula(rest);
    }
    true
}

// Whether what follows a quantifier fits it: its list of variables, and a truth.
pub fn quantifier_fine(bundle: &Bundle, text: &[u8]) -> bool
    ensures { result ≡ (every (parts_from (as_declared bundle.now) (rest_of (lexemes_of text.now)))
        && eqb (sort_from bundle.now (after_formula (lexemes_of text.now))) truth_sort) }
{
    let declared = all_declared(bundle, after_lexeme(text));
    let sort = sort_at(bundle, after_formula(text));
    declared & (sort == 0)
}

// ---- Lets

// The variable of the binding at the front, where its formula is of its sort.
fn bound_at(bundle: &Bundle, text: &[u8]) -> Option<usize>
    ensures bound { Numbered (bound_from bundle.now (lexemes_of text.now)) result }
    ensures small { IfSome result (λ x. x ≤ limits.variables) }
{
    let x = variable_at(bundle.variables(), text)?;
    let sort = sort_at(bundle, after_name(text));
    if bundle.variable_sort(x) == sort {
        Some(x)
    } else {
        None
    }
}

// Whether the bindings of a text up to the closing bracket fit, with variables that are all different and not in `seen`.
fn all_fresh(bundle: &Bundle, text: &[u8], seen: &mut [u64]) -> bool
    requires { set_words ≤ length seen.old }
    ensures { result ≡ fresh_from bundle.now seen.old set_words (lexemes_of text.now) }
{
    let mut rest = text;
    // No `for`: a turn goes on behind a binding.
    while part_at(rest) {
        let Some(x) = bound_at(bundle, rest) else {
            return false;
        };
        if member(seen, 0, Bundle::SET_WORDS, x) {
            return false;
        }
        insert(seen, 0, Bundle::SET_WORDS, x);
        rest = after_formula(rest);
    }
    true
}

// Whether the list of bindings at the front fits its let.
pub fn let_fine(bundle: &Bundle, text: &[u8]) -> bool
    ensures { result ≡ distinct (parts_from (bound_from bundle.now) (rest_of (lexemes_of text.now))) }
{
    let mut seen = [0u64; Bundle::SET_WORDS];
    all_fresh(bundle, after_lexeme(text), &mut seen)
}
