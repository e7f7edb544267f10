// The places of the variables crossed, and the set of those bound on the right, in lent words: what `Binders` does, over the words alone.
ghost use Rattle.std.specs.Prelude.{◌≡◌, List, ◌∷◌, ℕ, ◌+◌, ◌*◌, ◌≤◌, ◌<◌, length};
ghost use Rattle.bundle.specs.Bundle.{term_of};
ghost use Rattle.free_variables.specs.TermSets.{free_in};
ghost use Rattle.logic.specs.Lists.{Number};
ghost use Rattle.logic.specs.ReflWalk.{Crossed, lefts, rights, variable_meets};
ghost use Rattle.images.specs.ContextRows.{image_at};
ghost use Rattle.crossings.specs.Places.{stamp, Half, Places};
ghost use Rattle.crossings.specs.Pairs.{meets_by};

use super::{records, variables};
use free_variables::term_sets::TermSets;
use images::images::image_of;
use logic::kinds::{Kind, is_binder};

// The places that two variables had before a binder of them was crossed, 0 for none, as the definition has it.
#[derive(Clone, Copy)]
pub struct Before {
    pub left: usize,
    pub right: usize,
}

// The place of x among the variables that are bound on one side, whose half of the places is lent; 0 for none, as the definition has it.
pub fn place_in(half: &[u16], x: usize) -> usize
    ensures { (ys : List ℕ) → Half half.now ys → result ≡ stamp ys x }
{
    if x == 0 {
        return 0;
    }
    if x > half.len() {
        return 0;
    }
    usize::from(half[x - 1])
}

// Crosses a binder of x on the left and of y on the right, where `depth` were crossed before. Counts and words alone: no bundle is asked.
pub fn cross(
    variables: usize,
    n: usize,
    places: &mut [u16],
    bound: &mut [u64],
    x: usize,
    y: usize,
    depth: usize,
) -> Before
    requires { (variables + variables ≤ length places.old) × (n ≤ length bound.old) × Number variables x × Number variables y
        × (variables ≤ 64 * n) × (depth < 65535) }
    ensures { (length places.new ≡ length places.old) × (length bound.new ≡ length bound.old)
        × ((ps : Crossed) → length ps ≡ depth → Places variables n places.old bound.old ps
        → Places variables n places.new bound.new ((x, y) ∷ ps) × (result.left ≡ stamp (lefts ps) x) × (result.right ≡ stamp (rights ps) y)) }
{
    let left = usize::from(places[x - 1]);
    let right = usize::from(places[variables + (y - 1)]);
    let place = (depth + 1) as u16;
    places[x - 1] = place;
    places[variables + (y - 1)] = place;
    sets::insert(bound, 0, n, y);
    Before { left, right }
}

// Takes that back: x had the place `left` before, and y had `right`.
pub fn uncross(
    variables: usize,
    n: usize,
    places: &mut [u16],
    bound: &mut [u64],
    x: usize,
    y: usize,
    left: usize,
    right: usize,
)
    requires { (variables + variables ≤ length places.old) × (n ≤ length bound.old) × Number variables x × Number variables y
        × (variables ≤ 64 * n) × (left ≤ 65535) × (right ≤ 65535) }
    ensures { (length places.new ≡ length places.old) × (length bound.new ≡ length bound.old)
        × ((ps : Crossed) → left ≡ stamp (lefts ps) x → right ≡ stamp (rights ps) y
        → Places variables n places.old bound.old ((x, y) ∷ ps)
        → Places variables n places.new bound.new ps) }
{
    places[x - 1] = left as u16;
    places[variables + (y - 1)] = right as u16;
    if right == 0 {
        sets::remove(bound, 0, n, y);
    }
}

// ---- Pairs

// Whether variable x on the left meets the term r. At a free variable, r is settled where just the variables bound on the right are moved: it has
// none of them free.
pub fn variable_meets(
    sets: &TermSets<'_>,
    images: &[u16],
    context: usize,
    places: &[u16],
    bound: &[u64],
    x: usize,
    r: usize,
) -> bool
    requires { (length sets.now.bundle.variables * (context + 1) ≤ length images.now)
        × (length sets.now.bundle.variables + length sets.now.bundle.variables ≤ length places.now) × (sets.now.n ≤ length bound.now) }
    ensures { (ps : Crossed) → Places (length sets.now.bundle.variables) sets.now.n places.now bound.now ps
        → result ≡ variable_meets (free_in sets.now) (image_at (length sets.now.bundle.variables) images.now context) sets.now.bundle ps x r }
{
    let bundle = sets.bundle();
    let count = bundle.variables();
    let place = place_in(&places[..count], x);
    if place != 0 {
        let kind = bundle.term_field(r, 0);
        let z = bundle.term_field(r, 1);
        let other = place_in(&places[count..count + count], z);
        return (kind == Kind::Variable.number()) & (place == other);
    }
    let image = image_of(count, images, context, x);
    let good = variables::image_is(bundle, image, x, r);
    if !good {
        return false;
    }
    let _words = sets.words(); // each of 64 bits
    sets.is_settled(bound, 0, r)
}

// Whether the pair of terms l and r meets by itself, without its parts, under the binders crossed. Most terms are variables and applications; these
// comparisons are 11 % fewer instructions of a walk than a match.
pub fn pair_meets(
    sets: &TermSets<'_>,
    images: &[u16],
    context: usize,
    places: &[u16],
    bound: &[u64],
    l: usize,
    r: usize,
) -> bool
    requires { (length sets.now.bundle.variables * (context + 1) ≤ length images.now)
        × (length sets.now.bundle.variables + length sets.now.bundle.variables ≤ length places.now) × (sets.now.n ≤ length bound.now) }
    ensures { (ps : Crossed) → Places (length sets.now.bundle.variables) sets.now.n places.now bound.now ps
        → result ≡ meets_by (free_in sets.now) (image_at (length sets.now.bundle.variables) images.now context) sets.now.bundle
        (term_of sets.now.bundle l) ps r }
{
    let bundle = sets.bundle();
    let kind = bundle.term_field(l, 0);
    if kind == Kind::Variable.number() {
        let x = bundle.term_field(l, 1);
        return variable_meets(sets, images, context, places, bound, x, r);
    }
    if kind == Kind::Application.number() {
        return records::application_meets(bundle, l, r);
    }
    if is_binder(kind) {
        return records::binder_meets(bundle, l, r);
    }
    if kind == Kind::Let.number() {
        return records::let_meets(bundle, l, r);
    }
    false
}
