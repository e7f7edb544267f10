// Words, heads and variables of a text beside declarations.
ghost use Rattle.std.specs.Prelude.{IfSome, length};
ghost use Rattle.pass_tokens.specs.Tokens.{WordTo, HeadTo, BoundTo};
ghost use Rattle.pass_terms.specs.Passing.{DeclaredTo};

use bundle::Bundle;
use pass_tokens::{Meaning, Text};

pub fn word_in(bundle: &Bundle, text: &mut Text<'_>) -> Option<Meaning>
    ensures { IfSome result (WordTo (length bundle.now.symbols) (length bundle.now.variables) text.old text.new) }
{
    text.word(bundle.symbols(), bundle.variables())
}

pub fn head_in(bundle: &Bundle, text: &mut Text<'_>) -> Option<Meaning>
    ensures { IfSome result (HeadTo (length bundle.now.symbols) text.old text.new) }
{
    text.head(bundle.symbols(), bundle.variables())
}

pub fn bound_in(bundle: &Bundle, text: &mut Text<'_>) -> Option<usize>
    ensures { IfSome result (BoundTo (length bundle.now.variables) text.old text.new) }
{
    text.bound(bundle.symbols(), bundle.variables())
}

// A variable of a quantifier's list, with its declared sort.
pub fn sorted_in(bundle: &Bundle, text: &mut Text<'_>) -> Option<usize>
    ensures { IfSome result (DeclaredTo bundle.now text.old text.new) }
{
    let x = text.sorted(bundle.symbols(), bundle.variables())?;
    if bundle.variable_sort(x.variable) != x.sort.number() {
        return None;
    }
    Some(x.variable)
}
