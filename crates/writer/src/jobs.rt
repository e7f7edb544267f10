// The checks of a job after 1 to 9.
ghost use Rattle.std.specs.Prelude.{◌≡◌, not, ◌*◌, ◌≤◌, length};
ghost use Rattle.bundle.specs.Limits.{set_words};
ghost use Rattle.logic.specs.Failures.{number_in};
ghost use Rattle.logic.specs.Tests.{up_to, first_failing};
ghost use Rattle.free_variables.specs.TermSets.{free_in};
ghost use Rattle.expansion.specs.Expansion.{early_tests};

use bundle::Bundle;
use free_variables::term_sets::TermSets;
use free_variables::words_for;
use logic::checks::Check;

// Whether no variable is free in term t.
fn is_closed(sets: &TermSets<'_>, t: usize) -> bool
    ensures { result ≡ up_to (length sets.now.bundle.variables) (λ x. not (free_in sets.now t x)) }
{
    (1..sets.bundle().variables() + 1).all(|x| !sets.is_free(t, x))
}

// 18, 15, 17: what is wrong with a job. The free sets are written into the lent words, as many a set as the job's variables ask for.
pub fn job_fault(bundle: &Bundle, sets: &mut [u64]) -> Result<(), Check>
    requires { set_words * length bundle.now.terms ≤ length sets.old }
    ensures { (length sets.new ≡ length sets.old) × (number_in result ≡ first_failing (early_tests bundle.now)) }
{
    let left = bundle.claim_left();
    let right = bundle.claim_right();
    let contexts = bundle.contexts();
    let steps = bundle.steps();
    let terms = bundle.terms();
    if !((contexts == 0) & (steps == 0) & (right == 0)) {
        return Err(Check::Job);
    }
    if !((0 < left) & (left <= terms)) {
        return Err(Check::Claim);
    }
    let n = words_for(bundle.variables());
    free_variables::free_sets(bundle, sets, n);
    if !is_closed(&TermSets::of(bundle, sets, n), left) {
        return Err(Check::Closed);
    }
    Ok(())
}
