// Turns: from a pair that has been visited to the next.
ghost use Rattle.std.specs.Prelude.{◌≡◌, Bool, true, [], ◌∷◌, ℕ, ◌+◌, ◌≤◌, length};
ghost use Rattle.bundle.specs.Bundle.{term_of};
ghost use Rattle.bundle.specs.Links.{items};
ghost use Rattle.logic.specs.declared.Image.{Image};
ghost use Rattle.logic.specs.ReflWalk.{sorts_meet, all_sorts_meet};
ghost use Rattle.pair_walk.specs.Agenda.{crossed_by, leaves, finish, with_frames, Sound, turn_to, Takes, Taken, TurnHeld};

use super::path::Path;
use bundle::items::followed;
use logic::Limited;
use logic::kinds::Kind;

// The next pair, already counted, and the pairs left after it.
#[derive(Clone, Copy)]
pub struct Pair {
    pub l: usize,
    pub r: usize,
    pub left: usize,
}

// Takes the terms x and y, parts of terms of which the left one is l, up as the next pair: it is counted, where one is left.
fn turn_to(l: usize, x: usize, y: usize, left: usize) -> Result<Pair, Limited>
    ensures { result ≡ turn_to l x y left }
{
    if left == 0 {
        return Err(Limited::Spent);
    }
    if x < l {
        Ok(Pair {
            l: x,
            r: y,
            left: left - 1,
        })
    } else {
        Err(Limited::Different(left - 1))
    }
}

// Takes the terms at the links i and j up, which the frame of l on top has, whatever their nexts are. The frame has the next links then; an
// application's is taken off where there are none.
fn take_any(
    path: &mut Path<'_, '_>,
    l: usize,
    i: usize,
    j: usize,
    left: usize,
) -> Result<Pair, Limited>
    requires { Takes path.old i j }
    ensures { Taken path.old l i j left path.new result }
{
    let bundle = path.bundle();
    let links = bundle.links();
    let first = bundle.link(i);
    let second = bundle.link(j);
    let after = followed(links, i, first.next);
    let other = followed(links, j, second.next);
    let kind = bundle.term_field(l, 0);
    if (kind == Kind::Application.number()) & (after == 0) & (other == 0) {
        path.pop();
    } else {
        path.advance(after, other);
    }
    turn_to(l, first.value, second.value, left)
}

// The same. In most lists both nexts rise, or both are 0: branches that are foreseen, where `followed` makes each turn wait for its choices.
fn take(path: &mut Path<'_, '_>, l: usize, i: usize, j: usize, left: usize) -> Result<Pair, Limited>
    requires { Takes path.old i j }
    ensures { Taken path.old l i j left path.new result }
{
    let bundle = path.bundle();
    let links = bundle.links();
    let first = bundle.link(i);
    let second = bundle.link(j);
    let next = first.next;
    let other = second.next;
    if (next == 0) & (other == 0) {
        let kind = bundle.term_field(l, 0);
        if kind == Kind::Application.number() {
            path.pop();
            return turn_to(l, first.value, second.value, left);
        }
    }
    if i < next {
        if j < other {
            if next <= links {
                if other <= links {
                    path.advance(next, other);
                    return turn_to(l, first.value, second.value, left);
                }
            }
        }
    }
    take_any(path, l, i, j, left)
}

// Crosses the variables of two lists in pairs.
fn cross_lists(path: &mut Path<'_, '_>, first: usize, second: usize)
    requires { let b = path.old.sets.bundle in
        (length path.old.frames + length (items b first) ≤ path.old.most) × (all_sorts_meet b (items b first) (items b second) ≡ true) }
    ensures { let b = path.old.sets.bundle in
        path.new ≡ with_frames path.old (leaves (items b first) (items b second) (crossed_by path.old.frames) path.old.frames) }
{
    let bundle = path.bundle();
    let mut others = bundle.items(second);
    for x in bundle.items(first) {
        let Some(y) = others.next() else {
            return;
        };
        path.cross(x, y);
    }
}

// Takes the bodies of the binders l and r up, inside their variables.
fn into_body(path: &mut Path<'_, '_>, l: usize, r: usize, left: usize) -> Result<Pair, Limited>
    requires { let b = path.old.sets.bundle in
        (length path.old.frames + 1 ≤ path.old.most) × (sorts_meet b (term_of b l).a (term_of b r).a ≡ true) }
    ensures { let b = path.old.sets.bundle in
        (result ≡ turn_to l (term_of b l).b (term_of b r).b left)
        × (path.new ≡ with_frames path.old (leaves ((term_of b l).a ∷ []) ((term_of b r).a ∷ []) (crossed_by path.old.frames) path.old.frames)) }
{
    let bundle = path.bundle();
    path.cross(bundle.term_field(l, 1), bundle.term_field(r, 1));
    turn_to(l, bundle.term_field(l, 2), bundle.term_field(r, 2), left)
}

// The same of lets, which bind a list of variables, and have their bodies in another field.
fn into_let(path: &mut Path<'_, '_>, l: usize, r: usize, left: usize) -> Result<Pair, Limited>
    requires { let b = path.old.sets.bundle in
        (length path.old.frames + length (items b (term_of b l).a) ≤ path.old.most)
        × (all_sorts_meet b (items b (term_of b l).a) (items b (term_of b r).a) ≡ true) }
    ensures { let b = path.old.sets.bundle in
        (result ≡ turn_to l (term_of b l).c (term_of b r).c left)
        × (path.new ≡ with_frames path.old (leaves (items b (term_of b l).a) (items b (term_of b r).a) (crossed_by path.old.frames) path.old.frames)) }
{
    let bundle = path.bundle();
    cross_lists(path, bundle.term_field(l, 1), bundle.term_field(r, 1));
    turn_to(l, bundle.term_field(l, 3), bundle.term_field(r, 3), left)
}

// What follows where a pair has been visited: the next pair, or how the walk has ended.
pub fn next(path: &mut Path<'_, '_>, left: usize) -> Result<Pair, Limited>
    requires { Sound path.old.sets.bundle path.old.most left path.old.frames × (length path.old.frames + left ≤ path.old.most) }
    ensures { (path.new ≡ with_frames path.old path.new.frames)
        × ((free : ℕ → ℕ → Bool) (image : ℕ → Image)
        → TurnHeld free image (finish free image path.old.sets.bundle path.old.frames left) left path.new result) }
{
    // A stack of frames: a turn takes one off, or ends at it.
    while let Some(top) = path.top() {
        let l = top.l;
        if l == 0 {
            path.uncross(top.r, top.i, top.j, top.e);
        } else {
            if top.i != 0 {
                if top.j != 0 {
                    return take(path, l, top.i, top.j, left);
                }
            }
            if (top.i != 0) | (top.j != 0) {
                return Err(Limited::Different(left));
            }
            path.pop();
            match Kind::of(path.bundle().term_field(l, 0)) {
                Some(Kind::Binder(_)) => {
                    return into_body(path, l, top.r, left);
                }
                Some(Kind::Let) => {
                    return into_let(path, l, top.r, left);
                }
                Some(Kind::Variable) => {}
                Some(Kind::Application) => {}
                None => {}
            }
        }
    }
    Err(Limited::Same(left))
}
