// The checks 7 to 9, and all of 1 to 9, on the lent file in place.
#![tactic(auto)]

ghost use Rattle.std.specs.Prelude.{◌≡◌, IfOk};
ghost use Rattle.bundle.specs.File.{bundle_of};
ghost use Rattle.logic.specs.Failures.{fault_in};
ghost use Rattle.logic.specs.Checks.{sections_fault, tables_fault};

pub mod terms; // terms.rt: 7, 8, and all of a term

use bundle::Bundle;
use declarations::header::opened;
use logic::checks::Failure;
use sorting::sorted_bundle::SortedBundle;

// The first bad record of links, symbols, variables, terms, where the sorts of all terms are noted.
pub fn sections_fault(sorted: &SortedBundle) -> Result<(), Failure>
    ensures { fault_in result ≡ sections_fault sorted.now }
{
    declarations::sections_fault(sorted.bundle())?;
    terms::terms_fault(sorted)
}

// The same, with room for the sorts: a file with few terms gets little. `noted_fault` of `checker` is alike, and says why there are two.
// Each room is one array and two lines: a function with a const size would be longer than both, where `late_fault_within` of checker has two arrays and three
// sizes.
fn noted_sections(bundle: &Bundle) -> Result<(), Failure>
    ensures { fault_in result ≡ sections_fault bundle.now }
{
    if bundle.terms() < 256 {
        let mut few = [0usize; 256];
        return sections_fault(&SortedBundle::noted(bundle, &mut few));
    }
    let mut sorts = [0usize; Bundle::TERMS + 1];
    sections_fault(&SortedBundle::noted(bundle, &mut sorts))
}

// The file as a bundle; or the first of the checks 1 to 9 that it fails, where an area of `lent` words is lent and `required` are required.
pub fn tables_fault(file: &[u8], lent: usize, required: usize) -> Result<Bundle<'_>, Failure>
    ensures fault { fault_in result ≡ tables_fault file.now lent required }
    ensures bundle { IfOk result (λ b. b ≡ bundle_of file.now) }
{
    let bundle = opened(file, lent, required)?;
    noted_sections(&bundle)?;
    Ok(bundle)
}
