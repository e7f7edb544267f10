// Signatures of symbols, and sorts from what is noted.
ghost use Rattle.std.specs.Prelude.{◌≡◌, ◌&&◌, get_or, ◌≤◌, length};
ghost use Rattle.bundle.specs.Limits.{limits};
ghost use Rattle.bundle.specs.Links.{items};
ghost use Rattle.bundle.specs.Lists.{different};
ghost use Rattle.logic.specs.declared.Signature.TheVariants.{BuiltIn};
ghost use Rattle.logic.specs.Symbols.{truth_sort, symbol_kind, signature, known, result_sort};
ghost use Rattle.logic.specs.Checks.{not_empty};

use bundle::Bundle;
use logic::Signature;

// Built in: so many arguments, each of that sort. The result is truth.
fn built_in(count: usize, sort: usize) -> Signature
    ensures { result ≡ BuiltIn count sort truth_sort }
{
    Signature::BuiltIn {
        count,
        sort,
        result: 0,
    }
}

// The signature of symbol f, where so many are declared: with no bundle at hand. By numbers: a file names built-in symbols by them, and declared ones go on
// after them.
pub fn signature_in(symbols: usize, f: usize) -> Signature
    requires { symbols ≤ limits.symbols }
    ensures { result ≡ signature (symbol_kind symbols f) }
{
    match f {
        1 | 2 => built_in(0, 0), // true, false
        3 => built_in(1, 0), // not
        4..=7 => built_in(2, 0), // and, or, implies, equals on truth
        8 => built_in(2, 1), // equals on items
        0 | 9..=32 => Signature::Unknown, // reserved
        _ => {
            if f <= 32 + symbols {
                return Signature::Declared(f - 32);
            }
            Signature::Unknown
        }
    }
}

// The signature of symbol f.
pub fn signature_of(bundle: &Bundle, f: usize) -> Signature
    ensures { result ≡ signature (symbol_kind (length bundle.now.symbols) f) }
{
    signature_in(bundle.symbols(), f)
}

// Whether there is such a symbol.
pub fn is_known(s: Signature) -> bool
    ensures { result ≡ known s }
{
    match s {
        Signature::BuiltIn {
            count: _,
            sort: _,
            result: _,
        } => true,
        Signature::Declared(_) => true,
        Signature::Unknown => false,
    }
}

// The result sort; 0 where there is no such symbol, as the definition has it.
pub fn result_sort(bundle: &Bundle, s: Signature) -> usize
    ensures { result ≡ result_sort bundle.now s }
{
    match s {
        Signature::BuiltIn {
            count: _,
            sort: _,
            result,
        } => result,
        Signature::Declared(i) => bundle.symbol_field(i, 0),
        Signature::Unknown => 0,
    }
}

// The sort of a term from `sorts`, where those of all terms are noted; 0 for a number past them, as the definition has it.
pub fn sort_in(sorts: &[usize], t: usize) -> usize
    ensures { result ≡ get_or sorts.now t 0 }
{
    if t < sorts.len() { sorts[t] } else { 0 }
}

// The lists of a let or of a replacing context agree where the variables are some and all different, and the terms fit them. Two tests, each small
// enough to be part of its callers' loops.

// Whether there is at least one variable, and all are different.
pub fn some_different(bundle: &Bundle, variables: usize) -> bool
    ensures { result ≡ (not_empty (items bundle.now variables) && different (items bundle.now variables)) }
{
    let some = bundle.first_link(variables) != 0;
    let different = bundle.all_different(variables);
    some & different
}
