// The formula of a whole text.
ghost use Rattle.formulas.specs.ReadGives.{ReadsText};

use super::reading_terms::read_formula;
use bundle::Bundle;
use endings::ReadTerm;
use filing::Filed;

// The records of a text's formula, appended to those in the scratch. No term is nested deeper than there may be terms.
pub fn read_records<'a>(
    bundle: &Bundle,
    text: &'a [u8],
    filed: &mut Filed<'_>,
) -> Option<ReadTerm<'a>>
    ensures { ReadsText bundle.now text.now filed.old filed.new result }
{
    let mut stack = [0u64; Bundle::LINKS];
    let read = read_formula(bundle, text, filed, &mut stack, 0, Bundle::TERMS);
    // A scratch is always within the limits.
    prove!(filed.scratch().counts().terms <= Bundle::TERMS);
    read
}
