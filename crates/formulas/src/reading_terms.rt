// A formula of a text read, part by part, into the records of its term: four functions that call on each other. Each call has less text left than its
// caller's, or as much and is nearer to a formula. `left` is how many levels of terms may still be opened.
// The stack is a slice with a height: what is known of it (`StackKept`) is said of slices, and `read_parts` alone writes it, in one place. The pass has a
// `Stack`, in a crate of its own.
// The declarations and the stack as a struct, as the pass has them: tried, and the proof did not close: after `&self.stack[..]` was lent to `apply_parts`, the
// stack in the clause was not shown to be the one that `read_parts` left.
ghost use Rattle.std.specs.Prelude.{None};
ghost use Rattle.logic.specs.Named.{binder_in};
ghost use Rattle.formulas.specs.ReadGives.{Asks, Leaves, LeavesParts, Reads, ReadsQuantified, ReadsLet, ReadsParts};

use bundle::Bundle;
use endings::{ReadParts, ReadTerm, apply_parts, bind_term, closed, let_term, place_word};
use filing::Filed;
use heads::Head;
use heads::places::{head_at, part_at, part_end, variable_at};
use logic::kinds::Binder;
use scratch::pairs::pack;

// The formula at the start of a text.
#[cycle(read_formula_read_let_read_parts_read_quantified)]
pub fn read_formula<'a>(
    bundle: &Bundle,
    text: &'a [u8],
    filed: &mut Filed<'_>,
    stack: &mut [u64],
    height: usize,
    left: usize,
) -> Option<ReadTerm<'a>>
    requires { Asks stack.old height }
    ensures { Leaves text.now stack.old height stack.new result × Reads bundle.now text.now filed.old height left filed.new result }
{
    if left == 0 {
        return None;
    }
    let found = head_at(text)?;
    let inside = found.rest;
    match found.head {
        Head::Alone(word) => place_word(bundle, word, filed, inside),
        Head::Application(word) => {
            let parts = read_parts(bundle, inside, filed, stack, height, left - 1, false)?;
            apply_parts(
                bundle,
                word,
                filed,
                &stack[height..parts.height],
                parts.sort,
                parts.rest,
            )
        }
        Head::Quantifier(q) => read_quantified(bundle, inside, filed, stack, height, left, q),
        Head::Let => read_let(bundle, inside, filed, stack, height, left - 1),
    }
}

// The variables of a quantifier, its body and its closing bracket.
#[cycle(read_formula_read_let_read_parts_read_quantified)]
fn read_quantified<'a>(
    bundle: &Bundle,
    text: &'a [u8],
    filed: &mut Filed<'_>,
    stack: &mut [u64],
    height: usize,
    left: usize,
    q: Binder,
) -> Option<ReadTerm<'a>>
    requires { Asks stack.old height }
    ensures { Leaves text.now stack.old height stack.new result
        × ReadsQuantified bundle.now text.now filed.old height left (binder_in q) filed.new result }
{
    let item = variable_at(text, bundle.variables());
    let Some(variable) = item.variable else {
        let body = read_formula(bundle, item.rest, filed, stack, height, left)?;
        return Some(closed(body));
    };
    if left == 0 {
        return None;
    }
    let body = read_quantified(bundle, item.rest, filed, stack, height, left - 1, q)?;
    bind_term(filed, q, variable, body)
}

// The pairs of a let, its body and its closing bracket.
#[cycle(read_formula_read_let_read_parts_read_quantified)]
fn read_let<'a>(
    bundle: &Bundle,
    text: &'a [u8],
    filed: &mut Filed<'_>,
    stack: &mut [u64],
    height: usize,
    left: usize,
) -> Option<ReadTerm<'a>>
    requires { Asks stack.old height }
    ensures { Leaves text.now stack.old height stack.new result × ReadsLet bundle.now text.now filed.old height left filed.new result }
{
    let parts = read_parts(bundle, text, filed, stack, height, left, true)?;
    let top = parts.height;
    let body = read_formula(bundle, parts.rest, filed, stack, top, left)?;
    let_term(filed, &stack[height..top], closed(body))
}

// Parts up to the closing bracket of their list: arguments, or pairs where they are bound. A pair for each is left on the stack, from `height` on: its
// term above, its variable below. `bound` as the definitions have it: parts with or without a variable.
#[cycle(read_formula_read_let_read_parts_read_quantified)]
fn read_parts<'a>(
    bundle: &Bundle,
    text: &'a [u8],
    filed: &mut Filed<'_>,
    stack: &mut [u64],
    height: usize,
    left: usize,
    bound: bool,
) -> Option<ReadParts<'a>>
    requires { Asks stack.old height }
    ensures { LeavesParts text.now stack.old height stack.new result
        × ReadsParts bundle.now text.now filed.old height left bound None filed.new stack.new result }
{
    let variables = bundle.variables();
    let mut top = height;
    let mut first = None;
    let mut part = part_at(text, variables, bound);
    // No `for`: a turn reads the part and goes on behind it.
    while let Some(variable) = part.variable {
        if top >= Bundle::LINKS {
            return None;
        }
        let read = read_formula(bundle, part.rest, filed, stack, top, left)?;
        stack[top] = pack(read.term, variable);
        top += 1;
        first = Some(first.unwrap_or(read.sort));
        part = part_at(part_end(read.rest, bound), variables, bound);
    }
    Some(ReadParts {
        height: top,
        sort: first.unwrap_or(0), // 0 where there is no part, as the definition has it
        rest: part.rest,
    })
}
