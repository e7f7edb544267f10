// THE PUBLIC READER of formula texts beside declarations.
#![tactic(auto)]

pub mod checks; // checks.rt: the checks of the declarations, before the text is read
pub mod texts; // texts.rt: what refuses a text before its records are placed
pub mod jobs; // jobs.rt: the job of a text, stored

ghost use Rattle.std.specs.Prelude.{length};
ghost use Rattle.expansion.specs.Answer.{answer_in};
ghost use Rattle.expansion.specs.AreasAfter.{Left, Stored};
ghost use Rattle.reading.specs.Reading.{reading};

use logic::checks::Failure;

// Checks the declarations and the text, places the formula's records in the scratch and stores the job at the start of the output: in one pass over the
// text, or by every check in its order where the pass is given up. The rest of the areas is left as it comes.
// The three areas are no struct: C lends them apart, and what stores a job takes two of them.
fn store_read(
    declarations: &[u8],
    text: &[u8],
    out: &mut [u8],
    words: &mut [u32],
    sets: &mut [u64],
) -> Result<usize, Failure>
    ensures { Stored (reading declarations.now text.now (length out.old) (length words.old)
        (length sets.old)) out.old words.old sets.old out.new words.new sets.new (answer_in result) }
{
    let bundle = checks::declarations_fault(declarations, out.len(), words.len(), sets.len())?;
    match jobs::store_passed(&bundle, text, out, words) {
        Some(length) => Ok(length),
        None => jobs::store_checked(&bundle, text, out, words),
    }
}

// Reads a text beside declarations, and writes the job whose left is its formula into the output. Whatever stood in the areas before: the scratch
// ends zero, bytes after the job are zero, and where the declarations or the text are refused every area is zero. As the writer's `expand`: two public
// calls, each with its own middle.
pub fn read(
    declarations: &[u8],
    text: &[u8],
    out: &mut [u8],
    words: &mut [u32],
    sets: &mut [u64],
) -> Result<usize, Failure>
    ensures { Left (reading declarations.now text.now (length out.old) (length words.old)
        (length sets.old)) (answer_in result) out.new words.new sets.new }
{
    let answer = store_read(declarations, text, out, words, sets);
    areas::close(answer, out, words, sets)
}
