// The program expand: reads a job of up to 65,536 bytes on standard input and writes the expanded file to standard output. With the argument --rename every
// quantifier and choice gets a new variable; without it names are kept; anything else is answered with a line on how it is called, on standard error.
// A job that is refused gets one line `refused`, number, record on standard error. Nothing goes to standard output then.
#![tactic(auto)]

use bundle::Bundle;
use expansion::Names;
use printing::print;
use std::env::FillError;
use std::rt::Env;

fn expand(job: &[u8], names: Names) {
    let mut out = [0u8; Bundle::BYTES];
    let mut words = [0u32; Bundle::WORDS];
    let mut sets = [0u64; Bundle::SET_WORDS * Bundle::TERMS];
    match writer::expand(job, names, &mut out, &mut words, &mut sets) {
        Ok(length) => {
            // As `text_refusals::write_start`: a call would have this program stand on the sentences of another, for one `if`.
            if let Some(file) = out.get(..length) {
                io::write_all(1, file);
            }
        }
        Err(failure) => {
            print(
                2,
                format_args!("refused {} {}\n", failure.check.number(), failure.record),
            );
        }
    }
}

fn is_absent(env: &impl Env, at: usize) -> bool {
    let mut word = [0u8; 0];
    matches!(env.arg(at, &mut word), Err(FillError::NotPresent))
}

// The choice that the arguments make: to keep where there is none, to rename for --rename alone; no choice for anything else.
fn choice(env: &impl Env) -> Option<Names> {
    let mut word = [0u8; 8];
    match env.arg(1, &mut word) {
        Ok(n) if &word[..n] == b"--rename".as_slice() && is_absent(env, 2) => Some(
            Names::RenameAll,
        ),
        Ok(_) => None,
        Err(FillError::NotPresent) => Some(Names::Keep),
        Err(FillError::TooLong) => None,
    }
}

fn main(rt: HostRuntime) {
    let Some(names) = choice(&rt) else {
        io::write_all(2, b"usage: expand_job [--rename] < JOB > FILE\n");
        return;
    };
    let mut input = io::large_buffer();
    let n = io::read_full(0, &mut input);
    expand(&input[..n], names);
}
