// The checks of the declarations: 1 to 6, then 18.
ghost use Rattle.std.specs.Prelude.{◌≡◌, IfOk};
ghost use Rattle.bundle.specs.File.{bundle_of};
ghost use Rattle.logic.specs.Failures.{fault_in};
ghost use Rattle.reading.specs.Reading.{is_declarations, declarations_fault};

use bundle::Bundle;
use declarations::header::opened;
use logic::checks::{Check, Failure};

// Whether T, C, P and both claim words are 0.
fn is_declarations(bundle: &Bundle) -> bool
    ensures { result ≡ is_declarations bundle.now }
{
    let terms = bundle.terms();
    let contexts = bundle.contexts();
    let steps = bundle.steps();
    let left = bundle.claim_left();
    let right = bundle.claim_right();
    (terms == 0) & (contexts == 0) & (steps == 0) & (left == 0) & (right == 0)
}

// The declarations as a bundle; or the first of the checks 1 to 6 and 18 that they fail, where the lent areas have these lengths.
pub fn declarations_fault(
    file: &[u8],
    out: usize,
    words: usize,
    sets: usize,
) -> Result<Bundle<'_>, Failure>
    ensures fault { fault_in result ≡ declarations_fault file.now out words sets }
    ensures bundle { IfOk result (λ b. b ≡ bundle_of file.now) }
{
    let enough = areas::long_enough(out, words, sets);
    let bundle = opened(file, enough, areas::AREAS)?;
    declarations::sections_fault(&bundle)?;
    if !is_declarations(&bundle) {
        return Err(Check::Job.into());
    }
    Ok(bundle)
}
