// The job of a text beside declarations of which no check fails, stored at the start of the output.
ghost use Rattle.std.specs.Prelude.{IfSome, ◌≡◌, length};
ghost use Rattle.expansion.specs.Answer.{Written, answer_in};
ghost use Rattle.reader.specs.Storing.{Cleared, TextStored};

use bundle::Bundle;
use files::copies::copy_job;
use files::stores::store_file;
use filing::{Filed, PLACES};
use formulas::texts::read_records;
use logic::checks::{Check, Failure};
use pass_formulas::texts::pass_text;

// By one pass over the text: the length of the job; or `None` where the pass is given up.
pub fn store_passed(
    bundle: &Bundle,
    text: &[u8],
    out: &mut [u8],
    words: &mut [u32],
) -> Option<usize>
    requires { Cleared bundle.now (length out.old) (length words.old) }
    ensures { (length out.new ≡ length out.old) × (length words.new ≡ length words.old)
        × IfSome result (λ n. TextStored bundle.now text.now out.old words.old out.new words.new (Written n)) }
{
    let mut index = [0u16; PLACES];
    let mut filed = Filed::of(copy_job(bundle, words), &mut index);
    let term = pass_text(bundle, text, &mut filed)?;
    Some(store_file(&filed.scratch().view(), term, 0, out))
}

// By every check in its order: what refuses the text; or its records are placed.
pub fn store_checked(
    bundle: &Bundle,
    text: &[u8],
    out: &mut [u8],
    words: &mut [u32],
) -> Result<usize, Failure>
    requires { Cleared bundle.now (length out.old) (length words.old) }
    ensures { TextStored bundle.now text.now out.old words.old out.new words.new (answer_in result) }
{
    super::texts::text_fault(bundle, text, out)?;
    let mut index = [0u16; PLACES];
    let mut filed = Filed::of(copy_job(bundle, words), &mut index);
    let read = read_records(bundle, text, &mut filed).ok_or(Check::Room)?;
    Ok(store_file(&filed.scratch().view(), read.term, 0, out))
}
