// What refuses a text before its records are placed: 19 and 20, then 8.
ghost use Rattle.std.specs.Prelude.{◌≡◌, ◌≤◌, length};
ghost use Rattle.logic.specs.Failures.{fault_in};
ghost use Rattle.grammar.specs.Names.{resolve};
ghost use Rattle.reading.specs.Called.{known_in};
ghost use Rattle.reader.specs.Texts.{text_fault};

use bundle::Bundle;
use logic::checks::{Check, Failure};

// The first of 19, 20 and 8 that refuses a text beside declarations, with the byte of 19 and 20. What stood in the area is not kept.
pub fn text_fault(bundle: &Bundle, text: &[u8], area: &mut [u8]) -> Result<(), Failure>
    requires { 32768 ≤ length area.old }
    ensures { fault_in result ≡ text_fault bundle.now (resolve (known_in bundle.now) text.now) }
{
    let symbols = bundle.symbols();
    let variables = bundle.variables();
    scanning::scan::scan(text, symbols, variables, area)?;
    if !node_tests::nodes::text_fine(bundle, text) {
        return Err(Check::Sorted.into());
    }
    Ok(())
}
