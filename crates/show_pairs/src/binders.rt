// What the binders crossed on the path say of a variable.
ghost use Rattle.std.specs.Prelude.{◌≡◌, IfSome};
ghost use Rattle.show_pairs.specs.Levels.{term_on, word_on, binds_in, Crossed, EndsWith};

use super::contexts::beside;
use super::path::{Level, Side};
use bundle::Bundle;
use free_variables::term_sets::TermSets;
use logic::kinds::Kind;

// Whether term t, a binder or a let, binds variable x.
fn binds(bundle: &Bundle, t: usize, x: usize) -> bool
    ensures { result ≡ binds_in bundle.now t x }
{
    let kind = bundle.term_field(t, 0);
    let first = bundle.term_field(t, 1);
    match Kind::of(kind) {
        Some(Kind::Binder(_)) => first == x,
        Some(Kind::Let) => bundle.has_item(first, x),
        Some(Kind::Variable) | Some(Kind::Application) | None => false,
    }
}

// The nearest of some levels, the last, whose binder is crossed and binds x on a side; and those after it.
pub fn nearest<'a>(
    bundle: &Bundle,
    levels: &'a [Level],
    side: Side,
    x: usize,
) -> Option<(Level, &'a [Level])>
    ensures { IfSome result (λ r. EndsWith levels.now r.0 r.1.now × Crossed bundle.now r.0 (term_on side r.0) x) }
{
    let k = levels.iter().rposition(|level| level.in_body && binds(bundle, level.term(side), x))?;
    Some((levels[k], &levels[k + 1..]))
}

// The same by the side's number, 0 for the left and 1 for the right. Another has the word of a level that `Level::word` says taken for a term.
pub fn nearest_by_number<'a>(
    bundle: &Bundle,
    levels: &'a [Level],
    side: usize,
    x: usize,
) -> Option<(Level, &'a [Level])>
    ensures { IfSome result (λ r. EndsWith levels.now r.0 r.1.now × Crossed bundle.now r.0 (word_on side r.0) x) }
{
    let place = levels.iter().rposition(|level| level.in_body
        && binds(bundle, level.word(side), x))?;
    Some((levels[place], &levels[place + 1..]))
}

// The variable on the right of a level that matches x, bound there on the left; `None` where a let lists none beside it.
pub fn partner(bundle: &Bundle, level: Level, x: usize) -> Option<usize> {
    let first = bundle.term_field(level.left, 1);
    let second = bundle.term_field(level.right, 1);
    match Kind::of(bundle.term_field(level.left, 0)) {
        Some(Kind::Let) => beside(bundle, first, second, x),
        _ => Some(second),
    }
}

// ---- capture

// The first variable of a list that is free in term t.
fn free_item(sets: &TermSets, list: usize, t: usize) -> Option<usize> {
    sets.bundle().items(list).find(|y| sets.is_free(t, *y))
}

// A variable of the right binder of a level that is free in term t, where the binder is crossed.
fn captured_at(sets: &TermSets, level: Level, t: usize) -> Option<usize> {
    if !level.in_body {
        return None;
    }
    let bundle = sets.bundle();
    let first = bundle.term_field(level.right, 1);
    match Kind::of(bundle.term_field(level.right, 0)) {
        Some(Kind::Let) => free_item(sets, first, t),
        _ => {
            if sets.is_free(t, first) {
                Some(first)
            } else {
                None
            }
        }
    }
}

// The variable free in term t that the nearest binder crossed on the right captures.
pub fn captured(sets: &TermSets, levels: &[Level], t: usize) -> Option<usize> {
    for level in levels.iter().rev() {
        let y = captured_at(sets, *level, t);
        if y.is_some() {
            return y;
        }
    }
    None
}
