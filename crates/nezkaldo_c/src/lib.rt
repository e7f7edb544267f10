// The library for other languages: `./build nezkaldo` makes target/staticlib/libnezkaldo.a of this crate; include/nezkaldo.h declares it for C. Each call
// is the one of that name in crate nezkaldo, with its clauses: they stand here again, since what C calls is exported here and promises what stands here.
#![tactic(auto)]

ghost use Rattle.std.specs.Prelude.{◌≡◌, length};
ghost use Rattle.judgement.specs.Judge.{judge, area_after};
ghost use Rattle.expansion.specs.declared.Names.TheVariants.{Keep, RenameAll};
ghost use Rattle.expansion.specs.Expansion.{expansion};
ghost use Rattle.reading.specs.Reading.{reading};
ghost use Rattle.nezkaldo.specs.Packed.{packed, packed_reply};

// Checks a file: the number of pairs of the last REFL walked, less than 2^32, where it is accepted, else number · 2^32 + record of the first check that
// fails. The lent area then holds the free sets of the file's terms and zeros after them, or zeros.
#[unsafe(no_mangle)]
pub extern "C" fn nezkaldo_check(file: &[u8], free: &mut [u64]) -> u64
    ensures value { result ≡ packed (judge file.now (length free.old)) }
    ensures free_after { free.new ≡ area_after file.now (length free.old) }
{
    nezkaldo::nezkaldo_check(file, free)
}

// Expands the lets of a job's rule: the file's length where it is written at the start of the output, else number · 2^32 + record of the first check that
// fails. The scratch ends zero, and so do the bytes after the file; where the job is refused, all of the output. A binder's variable is kept where one
// term record of the job alone binds it and no let lists it; else the binder gets a new one.
#[unsafe(no_mangle)]
pub extern "C" fn nezkaldo_expand(
    job: &[u8],
    out: &mut [u8],
    words: &mut [u32],
    sets: &mut [u64],
) -> u64
    ensures value { result ≡ packed_reply
        (expansion Keep job.now (length out.old) (length words.old) (length sets.old)).answer }
    ensures out_after { out.new ≡ (expansion Keep job.now (length out.old) (length words.old) (length sets.old)).out }
    ensures words_after { words.new ≡ (expansion Keep job.now (length out.old) (length words.old)
        (length sets.old)).words }
    ensures sets_after { sets.new ≡ (expansion Keep job.now (length out.old) (length words.old)
        (length sets.old)).sets }
{
    nezkaldo::nezkaldo_expand(job, out, words, sets)
}

// The same with every binder renamed: each gets a new variable.
#[unsafe(no_mangle)]
pub extern "C" fn nezkaldo_expand_renamed(
    job: &[u8],
    out: &mut [u8],
    words: &mut [u32],
    sets: &mut [u64],
) -> u64
    ensures value { result ≡ packed_reply
        (expansion RenameAll job.now (length out.old) (length words.old) (length sets.old)).answer }
    ensures out_after { out.new ≡ (expansion RenameAll job.now (length out.old) (length words.old)
        (length sets.old)).out }
    ensures words_after { words.new ≡ (expansion RenameAll job.now (length out.old) (length words.old)
        (length sets.old)).words }
    ensures sets_after { sets.new ≡ (expansion RenameAll job.now (length out.old) (length words.old)
        (length sets.old)).sets }
{
    nezkaldo::nezkaldo_expand_renamed(job, out, words, sets)
}

// Reads a formula text beside declarations: the job's length where it is written at the start of the output, else number · 2^32 + record, or byte, of
// what refuses them first. A byte of 2^32 or more is added as it stands. The scratch ends zero, and so do the bytes after the job; where the
// declarations or the text are refused, all of the output.
#[unsafe(no_mangle)]
pub extern "C" fn nezkaldo_read(
    declarations: &[u8],
    text: &[u8],
    out: &mut [u8],
    words: &mut [u32],
    sets: &mut [u64],
) -> u64
    ensures value { result ≡ packed_reply (reading declarations.now text.now (length out.old) (length words.old)
        (length sets.old)).answer }
    ensures out_after { out.new ≡ (reading declarations.now text.now (length out.old) (length words.old)
        (length sets.old)).out }
    ensures words_after { words.new ≡ (reading declarations.now text.now (length out.old) (length words.old)
        (length sets.old)).words }
    ensures sets_after { sets.new ≡ (reading declarations.now text.now (length out.old) (length words.old)
        (length sets.old)).sets }
{
    nezkaldo::nezkaldo_read(declarations, text, out, words, sets)
}
