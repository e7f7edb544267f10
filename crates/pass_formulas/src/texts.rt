// A whole text read in one pass.
ghost use Rattle.std.specs.Prelude.{IfSome};
ghost use Rattle.pass_formulas.specs.PassGives.{TextRead};

use super::one_pass::Pass;
use bundle::Bundle;
use filing::Filed;
use pass_terms::stack::Stack;
use pass_tokens::Text;
use scratch::pairs::half;

// The term of a text's formula, of the sort truth, whose records are appended to those in the scratch.
pub fn pass_text(bundle: &Bundle, text: &[u8], filed: &mut Filed<'_>) -> Option<usize>
    ensures { IfSome result (TextRead bundle.now text.now filed.old filed.new) }
{
    let mut rest = Text::of(text);
    rest.skip_blanks();
    let mut pass = Pass {
        bundle,
        text: rest,
        stack: Stack::empty(),
    };
    pass.formula(filed, Bundle::TERMS)?;
    pass.text.skip_blanks();
    if !pass.text.is_empty() {
        return None;
    }
    let formula = pass.stack.top()?;
    if half(formula, false) != 0 {
        return None;
    }
    Some(half(formula, true))
}
