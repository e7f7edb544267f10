// The sorts that a symbol takes, and the variables of a let.
ghost use Rattle.std.specs.Prelude.{◌≡◌, false, not, replicate};
ghost use Rattle.bundle.specs.Lists.{same_list, has};
ghost use Rattle.logic.specs.Symbols.{argument_sorts};
ghost use Rattle.scratch.specs.Stack.{halves_of};
ghost use Rattle.pass_tokens.specs.Tokens.{equal_on};

use bundle::Bundle;
use logic::Signature;
use scratch::lists::same_halves;
use scratch::pairs::half;

// 8 for equality where its first argument is an item. Numbers, as records have them: the symbol is placed as it is.
pub fn equal_on(symbol: usize, sort: usize) -> usize
    ensures { result ≡ equal_on symbol sort }
{
    if (symbol == 7) & (sort == 1) {
        8
    } else {
        symbol
    }
}

// Whether there are so many pairs, each with the same sort below. The count is no length of a slice: it is what is asked.
fn all_of_sort(pairs: &[u64], count: usize, sort: usize) -> bool
    ensures { result ≡ same_list (replicate count sort) (halves_of false pairs.now) }
{
    if pairs.len() != count {
        return false;
    }
    for pair in pairs {
        if sort != half(*pair, false) {
            return false;
        }
    }
    true
}

// Whether a symbol of this signature takes the sorts of pairs.
pub fn takes(bundle: &Bundle, s: Signature, pairs: &[u64]) -> bool
    ensures { result ≡ same_list (argument_sorts bundle.now s) (halves_of false pairs.now) }
{
    match s {
        Signature::BuiltIn {
            count,
            sort,
            result: _,
        } => all_of_sort(pairs, count, sort),
        Signature::Declared(i) => same_halves(bundle, bundle.symbol_field(i, 1), pairs, false),
        Signature::Unknown => pairs.is_empty(),
    }
}

// Whether the variable x is not in the lower half of a pair.
pub fn is_new(pairs: &[u64], x: usize) -> bool
    ensures { result ≡ not (has x (halves_of false pairs.now)) }
{
    for pair in pairs {
        if x == half(*pair, false) {
            return false;
        }
    }
    true
}
