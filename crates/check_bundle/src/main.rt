// The program check: reads up to 65,536 bytes of standard input and prints one line: `accepted`, left, right, or `refused`, number, record.
#![tactic(auto)]

use bundle::Bundle;
use printing::print;

fn main() {
    let mut input = io::large_buffer();
    let n = io::read_full(0, &mut input);
    let mut free = [0u64; Bundle::SET_WORDS * Bundle::TERMS];
    match checker::check(&input[..n], &mut free) {
        Ok(accepted) => print(
            1,
            format_args!("accepted {} {}\n", accepted.left, accepted.right),
        ),
        Err(failure) => print(
            1,
            format_args!("refused {} {}\n", failure.check.number(), failure.record),
        ),
    }
}
