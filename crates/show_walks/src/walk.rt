// The walk of a REFL over pairs of terms, left to right and parent before child, to the first difference. This is for what show says: nothing is proved of
// its result, and the checker's own walk is another.
ghost use Rattle.std.specs.Prelude.{IfSome, ◌≡◌, ◌≤◌, ◌<◌};

use super::area::free_sets;
use bundle::Bundle;
use free_variables::term_sets::TermSets;
use logic::PAIR_LIMIT;
use logic::kinds::Kind;
use show_pairs::pairs::{Reason, pair_reason};
use show_pairs::path::{Level, Path};

// A pair is opened, its parts are taken and it is left: three turns of the loop for each pair that may be visited are enough.
const TURNS: usize = 3 * PAIR_LIMIT + 3;

// Where a walk ends: a pair, and why, where it ends at a difference.
#[derive(Clone, Copy)]
pub struct End {
    pub left: usize,
    pub right: usize,
    pub reason: Option<Reason>,
}

// What comes next: a pair to visit; the last level is left; or its pair has different numbers of arguments.
enum Turn {
    Visit { left: usize, right: usize },
    Leave,
    Differ,
}

// Opens a level for the parts of the pair l and r; a variable has none.
fn open(bundle: &Bundle, path: &mut Path, l: usize, r: usize) {
    let (i, j) = match Kind::of(bundle.term_field(l, 0)) {
        Some(Kind::Variable) => return,
        Some(Kind::Application) | Some(Kind::Let) => {
            (bundle.term_field(l, 2), bundle.term_field(r, 2))
        }
        Some(Kind::Binder(_)) | None => (0, 0),
    };
    path.push(Level {
        left: l,
        right: r,
        left_link: bundle.first_link(i),
        right_link: bundle.first_link(j),
        in_body: false,
    });
}

// The field of a term's body, where it has one.
fn body_field(kind: usize) -> Option<usize>
    ensures { IfSome result (λ k. k ≤ 3) }
{
    match Kind::of(kind) {
        Some(Kind::Binder(_)) => Some(2),
        Some(Kind::Let) => Some(3),
        Some(Kind::Variable) | Some(Kind::Application) | None => None,
    }
}

// The bodies of a level, once; then the level is left.
fn next_body(bundle: &Bundle, level: &mut Level) -> Turn {
    if level.in_body {
        return Turn::Leave;
    }
    level.in_body = true;
    match body_field(bundle.term_field(level.left, 0)) {
        None => Turn::Leave,
        Some(body) => Turn::Visit {
            left: bundle.term_field(level.left, body),
            right: bundle.term_field(level.right, body),
        },
    }
}

// The next parts of a level.
fn next_turn(bundle: &Bundle, level: &mut Level) -> Turn {
    let i = level.left_link;
    let j = level.right_link;
    if (i == 0) & (j == 0) {
        return next_body(bundle, level);
    }
    if (i == 0) | (j == 0) {
        return Turn::Differ;
    }
    level.left_link = bundle.next_link(i);
    level.right_link = bundle.next_link(j);
    Turn::Visit {
        left: bundle.link_field(i, 0),
        right: bundle.link_field(j, 0),
    }
}

// A pair to visit, where left is a number of a term: 0 is of none.
fn pair_of(left: usize, right: usize) -> Option<(usize, usize)>
    ensures { IfSome result (λ p. (0 < p.0) × (p.0 ≡ left) × (p.1 ≡ right)) }
{
    if left == 0 { None } else { Some((left, right)) }
}

// The walk, over the free sets of all terms.
fn walk(sets: &TermSets, context: usize, left: usize, right: usize) -> End {
    let bundle = sets.bundle();
    let none = End {
        left,
        right,
        reason: None,
    };
    let mut path = Path::new();
    let mut pair = pair_of(left, right);
    let mut visited = 0;
    for _ in 0..TURNS {
        if let Some((l, r)) = pair {
            let found = if visited >= PAIR_LIMIT {
                Some(Reason::Spent)
            } else {
                pair_reason(sets, path.levels(), context, l, r)
            };
            if found.is_some() {
                return End {
                    left: l,
                    right: r,
                    reason: found,
                };
            }
            visited += 1;
            open(bundle, &mut path, l, r);
        }
        let Some(mut level) = path.last() else {
            return none;
        };
        path.pop();
        pair = match next_turn(bundle, &mut level) {
            Turn::Visit { left: l, right: r } => {
                path.push(level);
                pair_of(l, r)
            }
            Turn::Leave => None,
            Turn::Differ => {
                return End {
                    left: level.left,
                    right: level.right,
                    reason: Some(Reason::Count),
                };
            }
        };
    }
    none
}

// Where the walk of a REFL with these sides in a context ends.
pub fn first_difference(bundle: &Bundle, context: usize, left: usize, right: usize) -> End {
    let area = free_sets(bundle);
    walk(
        &TermSets::of(bundle, &area, Bundle::SET_WORDS),
        context,
        left,
        right,
    )
}
