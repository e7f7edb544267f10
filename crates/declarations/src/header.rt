// The file as a whole: under 36 bytes, 2, 3, exact length, 4.
ghost use Rattle.std.specs.Prelude.{◌≡◌, IfOk};
ghost use Rattle.bundle.specs.File.{bundle_of};
ghost use Rattle.logic.specs.Failures.{number_in};
ghost use Rattle.logic.specs.Checks.{header_fault};

use bundle::Bundle;
use bundle::words::counts;
use logic::checks::Check;

// The file as a bundle; or what is wrong with it as a whole, or with an area of `lent` words where `required` are required.
#[inline(always)]
pub fn opened(file: &[u8], lent: usize, required: usize) -> Result<Bundle<'_>, Check>
    ensures number { number_in result ≡ header_fault file.now lent required }
    ensures bundle { IfOk result (λ b. b ≡ bundle_of file.now) }
{
    if file.len() < Bundle::LEAST {
        return Err(Check::Length);
    }
    let b = counts(file);
    if b.version != 1 {
        return Err(Check::Version);
    }
    if !b.within() {
        return Err(Check::Limits);
    }
    if file.len() != b.bytes() {
        return Err(Check::Length);
    }
    if lent < required {
        return Err(Check::Area);
    }
    Ok(Bundle::of(file, b))
}
