// THE PUBLIC EXPANSION: the lets of a job's rule expanded, with the derivation.
#![tactic(auto)]

pub mod jobs; // jobs.rt: the checks of a job after 1 to 9

ghost use Rattle.std.specs.Prelude.{◌≡◌, length, IfOk};
ghost use Rattle.bundle.specs.File.{bundle_of};
ghost use Rattle.logic.specs.Failures.{fault_in};
ghost use Rattle.logic.specs.Checks.{tables_fault};
ghost use Rattle.expansion.specs.Answer.{answer_in};
ghost use Rattle.expansion.specs.Expansion.{expansion};
ghost use Rattle.expansion.specs.AreasAfter.{Left, Stored};

use bundle::Bundle;
use expansion::Names;
use files::copies::copy_job;
use files::stores::store_file;
use filing::{Filed, PLACES};
use logic::checks::{Check, Failure};
use names::Kept;
use visits::visits::visit_term;

// The job as a bundle, where the checks 1 to 9 find nothing. It is made again of its file and counts: those that the checks have looked at would be moved
// by a call of the C library's `memcpy`.
#[inline(always)]
fn job_opened(file: &[u8], lent: usize, required: usize) -> Result<Bundle<'_>, Failure>
    ensures fault { fault_in result ≡ tables_fault file.now lent required }
    ensures bundle { IfOk result (λ b. b ≡ bundle_of file.now) }
{
    let bundle = terms::tables_fault(file, lent, required)?;
    Ok(Bundle::of(bundle.file(), bundle.counts()))
}

// Checks the job, expands it in the scratch and stores the file at the start of the output. Which variables are kept is decided from the job, before.
// The rest of the areas is left as it comes.
// The three areas are no struct: C lends them apart, and each goes its own way here: the file, the scratch, the sets and then the stack.
fn store_job(
    job: &[u8],
    names: Names,
    out: &mut [u8],
    words: &mut [u32],
    sets: &mut [u64],
) -> Result<usize, Failure>
    ensures { Stored (expansion names job.now (length out.old) (length words.old) (length sets.old))
        out.old words.old sets.old out.new words.new sets.new (answer_in result) }
{
    let enough = areas::long_enough(out.len(), words.len(), sets.len());
    let bundle = job_opened(job, enough, areas::AREAS)?;
    jobs::job_fault(&bundle, sets)?;
    let left = bundle.claim_left();
    let kept = Kept::of(&bundle, names);
    let mut index = [0u16; PLACES];
    let mut filed = Filed::of(copy_job(&bundle, words), &mut index);
    let visited = visit_term(&mut filed, sets, &kept, 0, 0, left).ok_or(Check::Room)?;
    Ok(store_file(&filed.scratch().view(), left, visited.result, out))
}

// Expands the lets of a job's rule under a choice of names, and writes the file with the derivation into the output. Whatever stood in the areas before:
// the scratch ends zero, bytes after the file are zero, and where the job is refused every area is zero.
pub fn expand(
    job: &[u8],
    names: Names,
    out: &mut [u8],
    words: &mut [u32],
    sets: &mut [u64],
) -> Result<usize, Failure>
    ensures { Left (expansion names job.now (length out.old) (length words.old) (length sets.old)) (answer_in result)
        out.new words.new sets.new }
{
    let answer = store_job(job, names, out, words, sets);
    areas::close(answer, out, words, sets)
}
