// The walk of whole-term REFL: pairs of terms, left to right, parent before child, to the first difference, as one loop with an agenda of its own.
#![tactic(auto)]

ghost use Rattle.std.specs.Prelude.{◌≡◌, [], ◌+◌, ◌*◌, ◌≤◌, length};
ghost use Rattle.bundle.specs.Limits.{set_words};
ghost use Rattle.free_variables.specs.TermSets.{free_in};
ghost use Rattle.logic.specs.ReflWalk.{within_by, pair_limit};
ghost use Rattle.images.specs.ContextRows.{image_at};
ghost use Rattle.crossings.specs.Places.{Places};

use bundle::Bundle;
use crossings::Binders;
use free_variables::term_sets::TermSets;
use logic::{Limited, PAIR_LIMIT};
use path::Path;

mod frames; // frames.rt: frames of the agenda
mod path; // path.rt: the agenda, and the binders crossed
mod turns; // turns.rt: from one pair to the next

// The walk from the terms l and r, which may visit `most` pairs, in arrays that are lent. The path is made here: so its fields are locals of the loop.
fn walk<'s, 'a>(
    sets: &TermSets<'s>,
    images: &[u16],
    context: usize,
    places: &'a mut [u16],
    bound: &'a mut [u64],
    agenda: &'a mut [u16],
    left: usize,
    right: usize,
    most: usize,
) -> Limited
    requires { (length sets.now.bundle.variables * (context + 1) ≤ length images.now) × (length sets.now.bundle.variables ≤ 64 * sets.now.n)
        × Places (length sets.now.bundle.variables) sets.now.n places.old bound.old [] × (5 * most ≤ length agenda.old) × (1 ≤ most) × (most ≤ pair_limit) }
    ensures { result ≡ within_by (free_in sets.now) (image_at (length sets.now.bundle.variables) images.now context) sets.now.bundle left [] right most }
{
    let mut path = Path::of(Binders::of(sets, places, bound), agenda, most);
    let mut l = left;
    let mut r = right;
    let mut spare = most - 1;
    // A `loop`, since no sequence says which pair is the next: a turn visits a pair and finds it.
    loop {
        if !path.meets(images, context, l, r) {
            return Limited::Different(spare);
        }
        path.open(l, r);
        match turns::next(&mut path, spare) {
            Err(ended) => {
                return ended;
            }
            Ok(pair) => {
                l = pair.l;
                r = pair.r;
                spare = pair.left;
            }
        }
    }
}

// Most walks are short, and are made within a few pairs, with little room. An agenda has five words a pair.
const FEW: usize = 64;

const FEW_WORDS: usize = 5 * FEW;

const LIMIT_WORDS: usize = 5 * PAIR_LIMIT;

// The walk in arrays of its own. AGENDA, the words of the agenda, is given too, since a const argument is never computed.
fn walk_within<const PAIRS: usize, const AGENDA: usize>(
    sets: &TermSets,
    images: &[u16],
    context: usize,
    left: usize,
    right: usize,
) -> Limited
    requires { (length sets.now.bundle.variables * (context + 1) ≤ length images.now) × (length sets.now.bundle.variables ≤ 64 * sets.now.n)
        × (sets.now.n ≤ set_words) × (AGENDA ≡ 5 * PAIRS) × (1 ≤ PAIRS) × (PAIRS ≤ pair_limit) }
    ensures { result ≡ within_by (free_in sets.now) (image_at (length sets.now.bundle.variables) images.now context) sets.now.bundle left [] right PAIRS }
{
    prove!(sets.bundle().variables() <= Bundle::VARIABLES);
    let mut places = [0u16; 2 * Bundle::VARIABLES];
    let mut bound = [0u64; Bundle::SET_WORDS];
    let mut agenda = [0u16; AGENDA];
    walk(
        sets,
        images,
        context,
        &mut places,
        &mut bound,
        &mut agenda,
        left,
        right,
        PAIRS,
    )
}

// THE WALK from the terms `left` and `right`, where no binder is crossed yet: how it ends, and how many of the pairs that it may visit are left. The
// match turns outcomes into outcomes, with more pairs left: there is nothing to choose in it that a table would name.
pub fn pair_walk(
    sets: &TermSets,
    images: &[u16],
    context: usize,
    left: usize,
    right: usize,
) -> Limited
    requires { (length sets.now.bundle.variables * (context + 1) ≤ length images.now) × (length sets.now.bundle.variables ≤ 64 * sets.now.n)
        × (sets.now.n ≤ set_words) }
    ensures { result ≡ within_by (free_in sets.now) (image_at (length sets.now.bundle.variables) images.now context) sets.now.bundle left [] right pair_limit }
{
    let walked = walk_within::<FEW, FEW_WORDS>(sets, images, context, left, right);
    match walked {
        Limited::Same(m) => Limited::Same(m + (PAIR_LIMIT - FEW)),
        Limited::Different(m) => Limited::Different(m + (PAIR_LIMIT - FEW)),
        Limited::Spent => {
            walk_within::<PAIR_LIMIT, LIMIT_WORDS>(sets, images, context, left, right)
        }
    }
}
