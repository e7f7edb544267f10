// REFL, TRANS, BIND, CONG and LET, one function each; CONG and LET share their walk.
ghost use Rattle.std.specs.Prelude.{MatchOption, ◌≡◌, true, false, ◌+◌, ◌*◌, ◌≤◌, length};
ghost use Rattle.bundle.specs.Limits.{limits};
ghost use Rattle.logic.specs.Tests.{passed};
ghost use Rattle.logic.specs.Rules.{is_image, refl_holds_by, cong_walk_by, trans_tests_by, trans_side_by, bind_terms_by, bind_contexts_by, free_in_image_by, head_tests, body_tests};
ghost use Rattle.logic.specs.Rules.{bind_sides_by, let_tests_by};
ghost use Rattle.bundle.specs.RecordWords.{as_step};
ghost use Rattle.rules.specs.WalkLists.{CongLists, LetLists};
ghost use Rattle.rules.specs.WordSides.{hit_by, WordApart, WordHit};
ghost use Rattle.free_variables.specs.TermSets.{free_in};
ghost use Rattle.images.specs.ContextRows.{image_at};
ghost use Rattle.images.specs.LentReading.{step_in, images_in, all_settled_in};

use super::Lists;
use bundle::Bundle;
use bundle::records::StepWords;
use free_variables::term_sets::TermSets;
use images::Known;
use images::images::{image_of, is_variable};
use logic::kinds::{Entry, Kind, is_binder};
use logic::rules::Rule;
use logic::{Image, Walk};
use premises::Taken;
use sets::{lowest_bit, without_bit};

// ---- REFL

// Whether the term r is the image of the variable that the term l is.
fn is_image(image: Image, l: usize, r: usize) -> bool
    ensures { result ≡ is_image image l r }
{
    match image {
        Image::Own => l == r,
        Image::Gives(t) => t == r,
    }
}

pub fn refl_holds(known: &Known, s: StepWords) -> bool
    requires { s.context ≤ length known.now.sets.bundle.contexts }
    ensures { result ≡ refl_holds_by (all_settled_in known.now.sets known.now.scopes) (images_in known.now.sets.bundle known.now.images)
        known.now.sets.bundle (as_step s) }
{
    let bundle = known.bundle();
    let context = s.context;
    let left = s.left;
    let right = s.right;
    if left == right {
        if known.is_settled(context, left) {
            return true;
        }
    }
    if bundle.term_field(left, 0) != Kind::Variable.number() {
        return false;
    }
    let variable = bundle.term_field(left, 1);
    is_image(known.image(context, variable), left, right)
}

// ---- TRANS

pub fn trans_holds(taken: &Taken, s: StepWords) -> bool
    ensures { result ≡ passed (trans_tests_by (step_in taken.now.bundle taken.now.bed) taken.now.bundle (as_step s)) }
{
    let bundle = taken.bundle();
    let context = s.context;
    let left = s.left;
    let right = s.right;
    let premises = s.premises;
    let first = bundle.first_item(premises);
    let second = bundle.second_item(premises);
    let middle = taken.field(first, 3);
    let to_middle = taken.carries(first, context, left, middle);
    let from_middle = taken.carries(second, context, middle, right);
    to_middle & from_middle
}

pub fn trans_side(sets: &TermSets, scopes: &[u64], bed: &[u32], s: StepWords) -> bool
    requires { (2 * sets.now.n * (length sets.now.bundle.contexts + 1) ≤ length scopes.now) × (s.context ≤ length sets.now.bundle.contexts) }
    ensures { result ≡ trans_side_by (all_settled_in sets.now scopes.now) (step_in sets.now.bundle bed.now) sets.now.bundle (as_step s) }
{
    let context = s.context;
    let premises = s.premises;
    let first = sets.bundle().first_item(premises);
    let middle = Taken::of(sets.bundle(), bed).field(first, 3);
    sets.is_settled(scopes, 2 * sets.n() * context, middle)
}

// ---- BIND

// The terms: binders of one kind, and a premise that carries the one body to the other.
pub fn bind_terms(taken: &Taken, s: StepWords) -> bool
    ensures { result ≡ passed (bind_terms_by (step_in taken.now.bundle taken.now.bed) taken.now.bundle (as_step s)) }
{
    let bundle = taken.bundle();
    let left = s.left;
    let right = s.right;
    let premises = s.premises;
    let left_kind = bundle.term_field(left, 0);
    let right_kind = bundle.term_field(right, 0);
    let left_body = bundle.term_field(left, 2);
    let right_body = bundle.term_field(right, 2);
    let premise = bundle.first_item(premises);
    let premise_left = taken.field(premise, 2);
    let premise_right = taken.field(premise, 3);
    is_binder(left_kind)
        & (right_kind == left_kind)
        & (premise_left == left_body)
        & (premise_right == right_body)
}

// The contexts: the premise's replaces x alone by y, its parent fixes y, whose parent is the step's.
pub fn bind_contexts(taken: &Taken, s: StepWords) -> bool
    ensures { result ≡ passed (bind_contexts_by (step_in taken.now.bundle taken.now.bed) taken.now.bundle (as_step s)) }
{
    let bundle = taken.bundle();
    let context = s.context;
    let left = s.left;
    let right = s.right;
    let premises = s.premises;
    let x = bundle.term_field(left, 1);
    let y = bundle.term_field(right, 1);
    let premise = bundle.first_item(premises);
    let inner = taken.field(premise, 1);
    let kind = bundle.context_field(inner, 0);
    let variables = bundle.context_field(inner, 1);
    let terms = bundle.context_field(inner, 2);
    let outer = bundle.context_field(inner, 3);
    let one_variable = bundle.is_single(variables);
    let variable = bundle.first_item(variables);
    let one_term = bundle.is_single(terms);
    let term = bundle.first_item(terms);
    let by_y = is_variable(bundle, term, y);
    let outer_kind = bundle.context_field(outer, 0);
    let fixed = bundle.context_field(outer, 1);
    let home = bundle.context_field(outer, 3);
    (kind == Entry::Replaces.number())
        & one_variable
        & (variable == x)
        & one_term
        & by_y
        & (outer_kind == Entry::Fixes.number())
        & (fixed == y)
        & (home == context)
}

// Whether y is free in the image of x.
fn free_in_image(sets: &TermSets, image: Image, x: usize, y: usize) -> bool
    ensures { result ≡ free_in_image_by (free_in sets.now) image x y }
{
    match image {
        Image::Own => y == x,
        Image::Gives(t) => sets.is_free(t, y),
    }
}

// Whether y is free in the image of a variable of one word of a set. The bits of the word are the variables from base + 1 on, of which only those that
// there are count. The lowest bit of what is left is taken out at each turn.
fn word_hits(
    sets: &TermSets,
    images: &[u16],
    context: usize,
    y: usize,
    word: u64,
    base: usize,
) -> bool
    requires { (length sets.now.bundle.variables ≤ limits.variables) × (base ≤ length sets.now.bundle.variables)
        × (length sets.now.bundle.variables * (context + 1) ≤ length images.now) }
    ensures { let last = length sets.now.bundle.variables in let hit = hit_by (free_in sets.now) (image_at last images.now context) y in
        (result ≡ false → WordApart word base last hit) × (result ≡ true → WordHit word base last hit) }
{
    let bundle = sets.bundle();
    let mut left = word;
    // No `for`: the lowest bit of what is left is taken out until none is.
    while left != 0 {
        let i = lowest_bit(left, 0);
        let z = base + 1 + i;
        if z > bundle.variables() {
            return false;
        }
        let image = image_of(bundle.variables(), images, context, z);
        if free_in_image(sets, image, z, y) {
            return true;
        }
        left = without_bit(left, i);
    }
    false
}

// The sides: y is free neither in the left side nor in the image of a free variable of it. The left side's set is gone over a word at a time.
pub fn bind_sides(sets: &TermSets, images: &[u16], s: StepWords) -> bool
    requires { (length sets.now.bundle.variables * (length sets.now.bundle.contexts + 1) ≤ length images.now) × (s.context ≤ length sets.now.bundle.contexts) }
    ensures { result ≡ bind_sides_by (free_in sets.now) (images_in sets.now.bundle images.now) sets.now.bundle (as_step s) }
{
    let bundle = sets.bundle();
    let context = s.context;
    let left = s.left;
    let right = s.right;
    let variables = bundle.variables();
    let y = bundle.term_field(right, 1);
    if sets.is_free(left, y) {
        return false;
    }
    if left == 0 {
        return true;
    }
    if left > bundle.terms() {
        return true;
    }
    let n = sets.n();
    let area = sets.words();
    let at = n * (left - 1);
    let words = n.min(variables.div_ceil(64));
    for (k, word) in area[at..at + words].iter().enumerate() {
        if word_hits(sets, images, context, y, *word, 64 * k) {
            return false;
        }
    }
    true
}

// ---- CONG and LET

// CONG: the arguments. The rest: both sides are applications, of one symbol.
fn cong_lists(bundle: &Bundle, s: StepWords) -> Option<Lists>
    ensures { MatchOption result (passed (head_tests bundle.now (as_step s)) ≡ false) (CongLists bundle.now (as_step s)) }
{
    let left = s.left;
    let right = s.right;
    let left_kind = bundle.term_field(left, 0);
    let right_kind = bundle.term_field(right, 0);
    let left_symbol = bundle.term_field(left, 1);
    let right_symbol = bundle.term_field(right, 1);
    let lefts = bundle.term_field(left, 2);
    let rights = bundle.term_field(right, 2);
    let application = Kind::Application.number();
    let good = (left_kind == application)
        & (right_kind == application)
        & (left_symbol == right_symbol);
    if !good {
        return None;
    }
    Some(Lists {
        body: false,
        context: s.context,
        lefts,
        rights,
    })
}

// LET: the bound terms, and those that the last premise's context puts in. The rest is of the body, and of that context.
fn let_lists(taken: &Taken, s: StepWords) -> Option<Lists>
    ensures { MatchOption result (passed (body_tests (step_in taken.now.bundle taken.now.bed) taken.now.bundle (as_step s)) ≡ false)
        (LetLists (step_in taken.now.bundle taken.now.bed) taken.now.bundle (as_step s)) }
{
    let bundle = taken.bundle();
    let home = s.context;
    let left = s.left;
    let right = s.right;
    let premises = s.premises;
    let kind = bundle.term_field(left, 0);
    let variables = bundle.term_field(left, 1);
    let bound = bundle.term_field(left, 2);
    let body = bundle.term_field(left, 3);
    let last = bundle.last_item(premises);
    let inner = taken.field(last, 1);
    let from = taken.field(last, 2);
    let to = taken.field(last, 3);
    let inner_kind = bundle.context_field(inner, 0);
    let replaced = bundle.context_field(inner, 1);
    let terms = bundle.context_field(inner, 2);
    let parent = bundle.context_field(inner, 3);
    let same = bundle.same_list(replaced, variables);
    let good = (kind == Kind::Let.number())
        & (from == body)
        & (to == right)
        & (inner_kind == Entry::Replaces.number())
        & (parent == home)
        & same;
    if !good {
        return None;
    }
    Some(Lists {
        body: true,
        context: home,
        lefts: bound,
        rights: terms,
    })
}

// The lists of a CONG, or else of a LET.
fn step_lists(taken: &Taken, s: StepWords) -> Option<Lists>
    ensures cong_lists { s.rule ≡ 2 → MatchOption result (passed (head_tests taken.now.bundle (as_step s)) ≡ false) (CongLists taken.now.bundle (as_step s)) }
    ensures let_lists { (s.rule ≡ 2 → ⊥) → MatchOption result (passed (body_tests (step_in taken.now.bundle taken.now.bed) taken.now.bundle (as_step s)) ≡ false)
        (LetLists (step_in taken.now.bundle taken.now.bed) taken.now.bundle (as_step s)) }
{
    if s.rule == Rule::Cong.number() {
        return cong_lists(taken.bundle(), s);
    }
    let_lists(taken, s)
}

// The test of a CONG, with the links that its walk read, or else that of a LET. One place calls the walk: so the compiler puts it where the steps are
// judged, and a step with short lists pays for no call.
pub fn step_walk(taken: &Taken, s: StepWords) -> Walk
    ensures value { s.rule ≡ 2 → result ≡ cong_walk_by (step_in taken.now.bundle taken.now.bed) taken.now.bundle (as_step s) }
    ensures passes_value { (s.rule ≡ 2 → ⊥) → result.passes ≡ passed (let_tests_by (step_in taken.now.bundle taken.now.bed) taken.now.bundle (as_step s)) }
{
    match step_lists(taken, s) {
        None => Walk {
            passes: false,
            links: 0,
        },
        Some(lists) => taken.walk(
            lists.body,
            lists.context,
            lists.lefts,
            lists.rights,
            s.premises,
        ),
    }
}
