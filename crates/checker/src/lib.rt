// THE PUBLIC CHECK: is a bundle accepted, and if not, which check fails first.
#![tactic(auto)]

ghost use Rattle.std.specs.Prelude.{◌≡◌, ◌+◌, ◌*◌, ◌≤◌, length, IfOk};
ghost use Rattle.bundle.specs.Limits.{limits, set_words};
ghost use Rattle.bundle.specs.File.{bundle_of};
ghost use Rattle.logic.specs.Failures.{number_in, fault_in};
ghost use Rattle.logic.specs.Tests.{first_failing, or_next};
ghost use Rattle.logic.specs.Checks.{sections_fault};
ghost use Rattle.logic.specs.Free.{free_area};
ghost use Rattle.free_variables.specs.FreeSets.{FreeSets};
ghost use Rattle.images.specs.ContextRows.{Images, Scopes};
ghost use Rattle.steps.specs.Verdicts.{Found};
ghost use Rattle.judgement.specs.Answer.{answer_in};
ghost use Rattle.judgement.specs.Judge.{claim_tests, acceptance, lent_for, late_fault, fault_of, judge, area_after};

use bundle::Bundle;
use bundle::words::word_at;
use declarations::header::opened;
use free_variables::spread::spread;
use free_variables::term_sets::TermSets;
use free_variables::words_for;
use images::Known;
use images::rows::Rows;
use judgement::Acceptance;
use logic::checks::{Check, Failure};
use sorting::sorted_bundle::SortedBundle;

// The words that a file's terms ask for: nothing of a file that is too short to say.
fn lent_for(file: &[u8]) -> usize
    ensures { result ≡ lent_for file.now }
{
    if file.len() < Bundle::LEAST {
        return 0;
    }
    Bundle::SET_WORDS * word_at(file, 3)
}

// 15: whether the last step is the claim.
fn claim_fault(bundle: &Bundle) -> Result<(), Check>
    ensures { number_in result ≡ first_failing (claim_tests bundle.now) }
{
    let steps = bundle.steps();
    let context = bundle.step_field(steps, 1);
    let left = bundle.step_field(steps, 2);
    let right = bundle.step_field(steps, 3);
    let claimed_left = bundle.claim_left();
    let claimed_right = bundle.claim_right();
    if (0 < steps) & (context == 0) & (left == claimed_left) & (right == claimed_right) {
        Ok(())
    } else {
        Err(Check::Claim)
    }
}

// The first of the checks 10 to 15 that fails, where the area holds the free sets, n words each, and there is room for what is known of contexts.
// The area and n come beside each other, and are made `TermSets` here alone: so the compiler knows that the sets, the rows and the contexts are those of one
// bundle, and reads its records once.
fn late_fault_in<'a>(
    sorted: &'a SortedBundle<'a>,
    free: &'a [u64],
    n: usize,
    images: &'a mut [u16],
    scopes: &'a mut [u64],
) -> Result<usize, Failure>
    requires { FreeSets (record { bundle = sorted.now; words = free.now; n = n }) × (length sorted.now.variables ≤ 64 * n) × (length sorted.now.variables * (length sorted.now.contexts + 1) ≤
        length images.old) × (2 * n * (length sorted.now.contexts + 1) ≤ length scopes.old) × Images sorted.now images.old 1 × Scopes sorted.now scopes.old n 1 × (n ≤ set_words) }
    ensures { Found (late_fault sorted.now) sorted.now result }
{
    let bundle = sorted.bundle();
    let sets = TermSets::of(bundle, free, n);
    let mut rows = Rows::of(bundle, images, scopes, n);
    contexts::contexts::contexts_fault(sorted, &sets, &mut rows)?;
    let known = Known::of(&sets, rows.images(), rows.scopes());
    let pairs = steps::steps::steps_fault(&known)?;
    claim_fault(bundle)?;
    Ok(pairs)
}

// The same with room of its own: PLACES places for rows, and WORDS words for sets.
fn late_fault_within<const PLACES: usize, const WORDS: usize>(
    sorted: &SortedBundle,
    free: &[u64],
    n: usize,
) -> Result<usize, Failure>
    requires { FreeSets (record { bundle = sorted.now; words = free.now; n = n }) × (n ≤ set_words) × (length sorted.now.variables ≤ 64 * n)
        × (length sorted.now.variables * (length sorted.now.contexts + 1) ≤ PLACES) × (PLACES ≤ limits.variables * (limits.contexts + 1))
        × (2 * n * (length sorted.now.contexts + 1) ≤ WORDS) × (WORDS ≤ 2 * set_words * (limits.contexts + 1)) }
    ensures { Found (late_fault sorted.now) sorted.now result }
{
    let mut images = [0u16; PLACES];
    let mut scopes = [0u64; WORDS];
    late_fault_in(sorted, free, n, &mut images, &mut scopes)
}

// Room for fewer than 8 contexts, for fewer than 32, and for all that a file can have, where there are as many variables as there may be.
const FEW_PLACES: usize = Bundle::VARIABLES * 8;

const FEW_WORDS: usize = 2 * Bundle::SET_WORDS * 8;

const SOME_PLACES: usize = Bundle::VARIABLES * 32;

const SOME_WORDS: usize = 2 * Bundle::SET_WORDS * 32;

const ALL_PLACES: usize = Bundle::VARIABLES * (Bundle::CONTEXTS + 1);

const ALL_WORDS: usize = 2 * Bundle::SET_WORDS * (Bundle::CONTEXTS + 1);

// The same with room of one of three sizes, for files with many variables. Two places call this: so the compiler keeps it, and its room, apart, and no other
// file pays for so much stack.
fn late_fault_wide(sorted: &SortedBundle, free: &[u64], n: usize) -> Result<usize, Failure>
    requires { FreeSets (record { bundle = sorted.now; words = free.now; n = n }) × (n ≤ set_words) × (length sorted.now.variables ≤ 64 * n) }
    ensures { Found (late_fault sorted.now) sorted.now result }
{
    let bundle = sorted.bundle();
    let contexts = bundle.contexts();
    if contexts < 8 {
        return late_fault_within::<FEW_PLACES, FEW_WORDS>(sorted, free, n);
    }
    if contexts < 32 {
        return late_fault_within::<SOME_PLACES, SOME_WORDS>(sorted, free, n);
    }
    late_fault_within::<ALL_PLACES, ALL_WORDS>(sorted, free, n)
}

// The same with room of one of three sizes, the last for 64 variables in all contexts, or as above. The room is cleared first, so a file with few variables
// and contexts gets little.
fn late_fault(sorted: &SortedBundle, free: &[u64], n: usize) -> Result<usize, Failure>
    requires { FreeSets (record { bundle = sorted.now; words = free.now; n = n }) × (n ≤ set_words) × (length sorted.now.variables ≤ 64 * n) }
    ensures { Found (late_fault sorted.now) sorted.now result }
{
    let bundle = sorted.bundle();
    let rows = bundle.contexts() + 1;
    let places = bundle.variables() * rows;
    let words = n * rows;
    if (places <= 512) & (words <= 40) {
        return late_fault_within::<512, 80>(sorted, free, n);
    }
    if (places <= 8192) & (words <= 257) {
        return late_fault_within::<8192, 514>(sorted, free, n);
    }
    if places > 16448 {
        return late_fault_wide(sorted, free, n);
    }
    if words > 257 {
        return late_fault_wide(sorted, free, n);
    }
    late_fault_within::<16448, 514>(sorted, free, n)
}

// What is wrong past the header, where the sorts of all terms are noted. Where nothing is, the area holds the free sets. While the file is checked they have
// as many words as its variables ask for.
fn sorted_fault(sorted: &SortedBundle, free: &mut [u64]) -> Result<usize, Failure>
    requires { set_words * length sorted.now.terms ≤ length free.old }
    ensures fact { Found (or_next (sections_fault sorted.now) (late_fault sorted.now)) sorted.now result }
    ensures free_after { IfOk result (λ _. free.new ≡ free_area sorted.now set_words (length free.old)) }
{
    terms::sections_fault(sorted)?;
    let bundle = sorted.bundle();
    let n = words_for(bundle.variables());
    free_variables::free_sets(bundle, free, n);
    let pairs = late_fault(sorted, free, n)?;
    spread(free, n, bundle.terms());
    Ok(pairs)
}

// The same, with room for the sorts: a file with few terms gets little. As noted_sections of terms: tried as one function that takes a closure, and what the
// closure leaves in the area was not proved.
// Each room is one array and two lines: a function with a const size would be longer than both, where `late_fault_within` of checker has two arrays and three
// sizes.
fn noted_fault(bundle: &Bundle, free: &mut [u64]) -> Result<usize, Failure>
    requires { set_words * length bundle.now.terms ≤ length free.old }
    ensures fact { Found (or_next (sections_fault bundle.now) (late_fault bundle.now)) bundle.now result }
    ensures free_after { IfOk result (λ _. free.new ≡ free_area bundle.now set_words (length free.old)) }
{
    if bundle.terms() < 256 {
        let mut few = [0usize; 256];
        return sorted_fault(&SortedBundle::noted(bundle, &mut few), free);
    }
    let mut sorts = [0usize; Bundle::TERMS + 1];
    sorted_fault(&SortedBundle::noted(bundle, &mut sorts), free)
}

// What is said of a file of which no check fails; the area then holds the free sets.
fn accepted(file: &[u8], free: &mut [u64]) -> Result<Acceptance, Failure>
    ensures fault { fault_in result ≡ fault_of file.now (length free.old) }
    ensures acceptance { IfOk result (λ a. a ≡ acceptance (bundle_of file.now)) }
    ensures free_after { IfOk result (λ _. free.new ≡ free_area (bundle_of file.now) set_words (length free.old)) }
{
    let lent = free.len();
    let required = lent_for(file);
    let bundle = opened(file, lent, required)?;
    let pairs = noted_fault(&bundle, free)?;
    Ok(Acceptance {
        left: bundle.claim_left(),
        right: bundle.claim_right(),
        pairs,
    })
}

// Checks a file. Where it is accepted, the lent area holds the free sets of its terms and zeros after them; where it is refused, zeros.
pub fn check(file: &[u8], free: &mut [u64]) -> Result<Acceptance, Failure>
    ensures value { answer_in result ≡ judge file.now (length free.old) }
    ensures free_after { free.new ≡ area_after file.now (length free.old) }
{
    let answer = accepted(file, free);
    if answer.is_err() {
        sets::clear(free, 0, free.len());
    }
    answer
}
