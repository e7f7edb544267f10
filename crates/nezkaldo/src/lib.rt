// The calls of the library for other languages, whose answers are one number each: crate nezkaldo_c exports them to C. The areas stand apart in each
// call, as C lends them.
#![tactic(auto)]

ghost use Rattle.std.specs.Prelude.{◌≡◌, ◌+◌, ◌*◌, ◌≤◌, length};
ghost use Rattle.judgement.specs.Judge.{judge, area_after};
ghost use Rattle.expansion.specs.declared.Names.TheVariants.{Keep, RenameAll};
ghost use Rattle.expansion.specs.Answer.{answer_in};
ghost use Rattle.expansion.specs.Expansion.{expansion};
ghost use Rattle.reading.specs.Reading.{reading};
ghost use Rattle.nezkaldo.specs.Packed.{packed, packed_reply};

use expansion::Names;
use logic::checks::Failure;

// Number and record in one word.
fn pack(number: usize, place: usize) -> u64
    requires { 4294967296 * number + place ≤ 18446744073709551615 }
    ensures { result ≡ 4294967296 * number + place }
{
    4294967296 * (number as u64) + place as u64
}

// Checks a file: the number of pairs of the last REFL walked, less than 2^32, where it is accepted, else number · 2^32 + record of the first check that
// fails. The lent area then holds the free sets of the file's terms and zeros after them, or zeros. Not by `reply_number`: what is said of an accepted file
// is more than a number, and its definitions are its own.
pub fn nezkaldo_check(file: &[u8], free: &mut [u64]) -> u64
    ensures value { result ≡ packed (judge file.now (length free.old)) }
    ensures free_after { free.new ≡ area_after file.now (length free.old) }
{
    match checker::check(file, free) {
        Ok(acceptance) => acceptance.pairs as u64,
        Err(failure) => pack(failure.check.number(), failure.record),
    }
}

// A file's length, or number and record in one word.
fn reply_number(reply: Result<usize, Failure>) -> u64
    requires { packed_reply (answer_in reply) ≤ 18446744073709551615 }
    ensures { result ≡ packed_reply (answer_in reply) }
{
    match reply {
        Ok(length) => length as u64,
        Err(denied) => pack(denied.check.number(), denied.record),
    }
}

// Expands the lets of a job's rule: the file's length where it is written at the start of the output, else number · 2^32 + record of the first check that
// fails. The scratch ends zero, and so do the bytes after the file; where the job is refused, all of the output. A binder's variable is kept where one
// term record of the job alone binds it and no let lists it; else the binder gets a new one.
pub fn nezkaldo_expand(job: &[u8], out: &mut [u8], words: &mut [u32], sets: &mut [u64]) -> u64
    ensures value { result ≡ packed_reply
        (expansion Keep job.now (length out.old) (length words.old) (length sets.old)).answer }
    ensures out_after { out.new ≡ (expansion Keep job.now (length out.old) (length words.old) (length sets.old)).out }
    ensures words_after { words.new ≡ (expansion Keep job.now (length out.old) (length words.old)
        (length sets.old)).words }
    ensures sets_after { sets.new ≡ (expansion Keep job.now (length out.old) (length words.old)
        (length sets.old)).sets }
{
    let reply = writer::expand(job, Names::Keep, out, words, sets);
    reply_number(reply)
}

// The same with every binder renamed: each gets a new variable.
pub fn nezkaldo_expand_renamed(
    job: &[u8],
    out: &mut [u8],
    words: &mut [u32],
    sets: &mut [u64],
) -> u64
    ensures value { result ≡ packed_reply
        (expansion RenameAll job.now (length out.old) (length words.old) (length sets.old)).answer }
    ensures out_after { out.new ≡ (expansion RenameAll job.now (length out.old) (length words.old)
        (length sets.old)).out }
    ensures words_after { words.new ≡ (expansion RenameAll job.now (length out.old) (length words.old)
        (length sets.old)).words }
    ensures sets_after { sets.new ≡ (expansion RenameAll job.now (length out.old) (length words.old)
        (length sets.old)).sets }
{
    let reply = writer::expand(job, Names::RenameAll, out, words, sets);
    reply_number(reply)
}

// Reads a formula text beside declarations: the job's length where it is written at the start of the output, else number · 2^32 + record, or byte, of
// what refuses them first. A byte of 2^32 or more is added as it stands. The scratch ends zero, and so do the bytes after the job; where the
// declarations or the text are refused, all of the output.
pub fn nezkaldo_read(
    declarations: &[u8],
    text: &[u8],
    out: &mut [u8],
    words: &mut [u32],
    sets: &mut [u64],
) -> u64
    ensures value { result ≡ packed_reply (reading declarations.now text.now (length out.old) (length words.old)
        (length sets.old)).answer }
    ensures out_after { out.new ≡ (reading declarations.now text.now (length out.old) (length words.old)
        (length sets.old)).out }
    ensures words_after { words.new ≡ (reading declarations.now text.now (length out.old) (length words.old)
        (length sets.old)).words }
    ensures sets_after { sets.new ≡ (reading declarations.now text.now (length out.old) (length words.old)
        (length sets.old)).sets }
{
    let reply = reader::read(declarations, text, out, words, sets);
    reply_number(reply)
}
