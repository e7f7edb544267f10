// A set of n words for each of so many terms, in lent words, whatever they hold: what `TermSets` says of them, where there is no bundle at hand, and so by
// counts and places.
ghost use Rattle.std.specs.Prelude.{◌≡◌, ◌&&◌, ◌+◌, ◌*◌, ◌≤◌, length};
ghost use Rattle.free_variables.specs.TermSets.{free_among, settled_among, in_scope_among, mentioned_at};

// Whether variable v is in the set of term t. A number that is no term's has none.
pub fn is_free(terms: usize, words: &[u64], n: usize, t: usize, v: usize) -> bool
    requires { n * terms ≤ length words.now }
    ensures { result ≡ free_among terms words.now n t v }
{
    if t == 0 {
        return false;
    }
    if t > terms {
        return false;
    }
    sets::member(words, n * (t - 1), n, v)
}

// Whether term t is settled where the set at `at` is that of the moved variables: it has none of them free. Alike to `is_free`,
// which asks of one variable: a number that is no term's has none free, and is settled.
pub fn is_settled(terms: usize, words: &[u64], n: usize, moved: &[u64], at: usize, t: usize) -> bool
    requires { (n * terms ≤ length words.now) × (at + n ≤ length moved.now) }
    ensures { result ≡ settled_among terms words.now n moved.now at t }
{
    if t == 0 {
        return true;
    }
    if t > terms {
        return true;
    }
    sets::disjoint(words, n * (t - 1), moved, at, n)
}

// Whether two terms are in scope in a context: each free variable of theirs is mentioned there.
pub fn both_in_scope(
    terms: usize,
    words: &[u64],
    n: usize,
    scopes: &[u64],
    context: usize,
    left: usize,
    right: usize,
) -> bool
    requires { (n * terms ≤ length words.now) × (2 * n * (context + 1) ≤ length scopes.now)
        × (1 ≤ left) × (left ≤ terms) × (1 ≤ right) × (right ≤ terms) }
    ensures { let scope = in_scope_among terms words.now n scopes.now (mentioned_at n context) in
        result ≡ (scope left && scope right) }
{
    let mentioned = &scopes[2 * n * context + n..];
    let first = &words[n * (left - 1)..];
    let second = &words[n * (right - 1)..];
    sets::both_subsets(first, second, mentioned, n)
}
