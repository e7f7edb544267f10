// How many links the test of a CONG step reads, as one number for other languages: crate nezkaldo_links_c exports it to C. The call is in a library of its
// own: in the checker's, a second caller of the walk would keep the compiler from putting it where steps are judged, and every check would be slower.
#![tactic(auto)]

ghost use Rattle.std.specs.Prelude.{◌≡◌, ◌*◌, ◌≤◌};
ghost use Rattle.logic.specs.Failures.{check_number};
ghost use Rattle.nezkaldo_links.specs.Links.{walk_number, links_number};

use declarations::header::opened;
use logic::Walk;
use logic::checks::Check;
use logic::rules::Rule;
use premises::Taken;
use rules::rules::step_walk;

// A check, as its number from bit 32 on. `pack` of nezkaldo has a record beside it: one for both would lie in `logic`, which knows nothing of what C is handed.
fn told(check: Check) -> u64
    ensures { result ≡ 4294967296 * check_number check }
{
    4294967296 * (check.number() as u64)
}

// What a walk found, as one number: the links that it read, and 13 · 2^32 more where the test fails.
fn walk_number(w: Walk) -> u64
    requires { w.links ≤ 4294967295 }
    ensures { result ≡ walk_number w }
{
    let links = w.links;
    if w.passes {
        return links as u64;
    }
    told(Check::Matches) + links as u64
}

// The links that the test of a CONG step reads where it passes; 13 · 2^32 more than that where it fails. 12 · 2^32 for a number that is no CONG step's,
// and n · 2^32 for a file whose header fails check n, of 1 to 3.
pub fn nezkaldo_links(file: &[u8], step: usize) -> u64
    ensures { result ≡ links_number file.now step }
{
    let bundle = match opened(file, 0, 0) {
        Ok(bundle) => bundle,
        Err(check) => return told(check),
    };
    let s = bundle.step_words(step);
    if s.rule != Rule::Cong.number() {
        return told(Check::Step);
    }
    let walked = step_walk(&Taken::of(&bundle, &[]), s);
    walk_number(walked)
}
