// What differs at one pair of terms, by the definition of the walk (crates/logic/specs/ReflWalk.antt).
use super::binders::{captured, nearest, partner};
use super::contexts::image;
use super::path::{Level, Side};
use bundle::Bundle;
use crossings::records::{all_sorts_meet, sorts_meet};
use crossings::variables::image_is;
use free_variables::term_sets::TermSets;
use images::images::is_variable;
use logic::Image;
use logic::kinds::Kind;

// Why two terms differ.
#[derive(Clone, Copy)]
pub enum Reason {
    // Terms of different kinds, for-all, exists and choice too.
    Kind,
    Symbol,
    // Different numbers of arguments.
    Count,
    // Binders whose variables are not as many, or not of the same sorts.
    Sorts,
    // Left is bound, and right is not this variable, which matches it; `None` where none does.
    Unmatched(Option<usize>),
    // Right is this variable, which matches left, and a nearer binder hides it.
    Hidden(usize),
    // Right is not the image of left.
    Image(Image),
    // Right is the image's term, and a binder crossed captures this variable of it.
    Capture(usize),
    // More pairs than a walk may visit.
    Spent,
}

// The left variable x is bound at a level; `inner` are those after it.
fn bound_reason(
    bundle: &Bundle,
    level: Level,
    inner: &[Level],
    x: usize,
    r: usize,
) -> Option<Reason> {
    let matching = partner(bundle, level, x);
    let Some(y) = matching.filter(|y| is_variable(bundle, r, *y)) else {
        return Some(Reason::Unmatched(matching));
    };
    if nearest(bundle, inner, Side::Right, y).is_some() {
        return Some(Reason::Hidden(y));
    }
    None
}

fn free_reason(
    sets: &TermSets,
    levels: &[Level],
    context: usize,
    x: usize,
    r: usize,
) -> Option<Reason> {
    let bundle = sets.bundle();
    let image = image(bundle, context, x);
    if !image_is(bundle, image, x, r) {
        return Some(Reason::Image(image));
    }
    let y = captured(sets, levels, r)?;
    Some(Reason::Capture(y))
}

// What differs at two records, where left is no variable.
fn head_reason(bundle: &Bundle, l: usize, r: usize) -> Option<Reason> {
    let kind = bundle.term_field(l, 0);
    let first = bundle.term_field(l, 1);
    let second = bundle.term_field(r, 1);
    if kind != bundle.term_field(r, 0) {
        return Some(Reason::Kind);
    }
    let (same, reason) = match Kind::of(kind) {
        Some(Kind::Application) => (first == second, Reason::Symbol),
        Some(Kind::Let) => (all_sorts_meet(bundle, first, second), Reason::Sorts),
        Some(Kind::Binder(_)) => (sorts_meet(bundle, first, second), Reason::Sorts),
        Some(Kind::Variable) | None => (false, Reason::Kind),
    };
    if same { None } else { Some(reason) }
}

// What differs at the pair of l and r, below some levels.
pub fn pair_reason(
    sets: &TermSets,
    levels: &[Level],
    context: usize,
    l: usize,
    r: usize,
) -> Option<Reason> {
    let bundle = sets.bundle();
    if Kind::of(bundle.term_field(l, 0)) != Some(Kind::Variable) {
        return head_reason(bundle, l, r);
    }
    let x = bundle.term_field(l, 1);
    match nearest(bundle, levels, Side::Left, x) {
        Some((level, inner)) => bound_reason(bundle, level, inner, x, r),
        None => free_reason(sets, levels, context, x, r),
    }
}
