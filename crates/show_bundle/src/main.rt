// The program show: reads a bundle of up to 65,536 bytes on standard input and prints it as text that can be read, and what the checker says of it.
// With the argument --dot it prints its steps as a graph, for Graphviz; the rest is comments there. With --rule it prints the formula of its left alone.
#![tactic(auto)]

use bundle::words::{claim_left, claim_right, counts};
use bundle::{Bundle, Counts};
use declarations::header::opened;
use judgement::Acceptance;
use logic::checks::{Check, Failure};
use show_text::out;
use std::rt::Env;

// What the checker answers.
type Answer = Result<Acceptance, Failure>;

// What is shown: what the checker answers, and whether all of it is a graph's text. A flag, and no `Option`: there is an answer in both.
#[derive(Clone, Copy)]
struct Shown {
    answer: Answer,
    is_dot: bool,
}

impl Shown {
    // A line of the graph's text that is not the graph's is a comment.
    fn line_start(self) {
        if self.is_dot {
            out::text(b"// ");
        }
    }

    fn header_line(self, counts: Counts, left: usize, right: usize) {
        self.line_start();
        out::print(format_args!(
            "version {}, symbols {}, variables {}, terms {}, links {}, contexts {}, steps {}, left {left}, right {right}\n",
            counts.version,
            counts.symbols,
            counts.variables,
            counts.terms,
            counts.links,
            counts.contexts,
            counts.steps,
        ));
    }

    // A word, two numbers and a newline.
    fn answer_line(self, word: &str, first: usize, second: usize) {
        self.line_start();
        out::print(format_args!("{word} {first} {second}\n"));
    }

    // A refusal, and the start of the line that says why.
    fn begin_refusal(self, failure: Failure) {
        self.answer_line("refused", failure.check.number(), failure.record);
        self.line_start();
        show_tables::tables::word(failure.check);
        out::text(b": ");
    }

    // The checker's answer, and one sentence that says why, where it refuses.
    fn show_answer<F: Fn(Failure)>(self, sentence: F)
        requires { F.IsAlwaysCallable sentence }
    {
        match self.answer {
            Ok(a) => self.answer_line("accepted", a.left, a.right),
            Err(failure) => {
                self.begin_refusal(failure);
                sentence(failure);
                out::line_end();
            }
        }
    }

    // What a whole file says, then the answer.
    fn show_bundle(self, bundle: &Bundle, left: usize, right: usize) {
        if self.is_dot {
            show_records::dot::nodes(bundle);
        } else {
            show_records::records::all_lines(bundle, left, right);
        }
        self.show_answer(|failure| show_steps::steps::sentence(bundle, left, right, failure));
    }

    // As much of the file as can be read. A file whose header is bad, which the checker refuses with 1 to 3, shows its header's numbers only.
    // The tests of `opened`, one by one: two of the sentences are of one check, and the header is shown between the first and the others.
    fn show_file(self, file: &[u8]) {
        let length = file.len();
        if length < Bundle::LEAST {
            self.show_answer(|_| show_tables::tables::too_short(length));
            return;
        }
        let b = counts(file);
        let left = claim_left(file);
        let right = claim_right(file);
        self.header_line(b, left, right);
        if b.version != 1 {
            self.show_answer(|_| show_tables::tables::foreign(b.version));
            return;
        }
        if !b.within() {
            self.show_answer(|_| show_tables::tables::oversize(b));
            return;
        }
        let bytes = b.bytes();
        if length != bytes {
            self.show_answer(|_| show_tables::tables::wrong_length(length, bytes));
            return;
        }
        self.show_bundle(&Bundle::of(file, b), left, right);
    }
}

// The most parts of a formula that --rule prints: the longest text that the program read takes has fewer.
const PARTS: usize = 524288;

// Whether the checks 1 to 9, of which 9 is that terms are new, find nothing. By their numbers, which are in the order of the checks.
fn is_formed(answer: Answer) -> bool {
    match answer {
        Ok(_) => true,
        Err(failure) => failure.check.number() > Check::New.number(),
    }
}

// The formula of the left, on one line. One that is too large is cut, and a line on standard error says so.
fn print_left(bundle: &Bundle, left: usize) {
    let rest = show_text::terms::term(bundle, left, PARTS);
    out::line_end();
    if rest == 0 {
        io::write_all(2, b"show: the formula has more than 524,288 parts\n");
    }
}

fn no_formula() {
    io::write_all(
        2,
        b"show: there is no formula to print: see what show says without --rule\n",
    );
}

// The formula of the left, where the checks 1 to 9 find nothing and the left is a term.
fn show_rule(file: &[u8], answer: Answer) {
    let Ok(bundle) = opened(file, 0, 0) else {
        no_formula();
        return;
    };
    let left = bundle.claim_left();
    if (left == 0) | (bundle.terms() < left) | !is_formed(answer) {
        no_formula();
        return;
    }
    print_left(&bundle, left);
}

// Whether the first argument is this one, of at most 8 bytes.
fn has_argument(env: &impl Env, option: &[u8]) -> bool {
    let mut word = [0u8; 8];
    match env.arg(1, &mut word) {
        Ok(n) => &word[..n] == option,
        Err(_) => false,
    }
}

fn graph_start(is_dot: bool) {
    if is_dot {
        out::text(b"digraph derivation {\n");
    }
}

fn graph_end(is_dot: bool) {
    if is_dot {
        out::text(b"}\n");
    }
}

fn main(rt: HostRuntime) {
    let mut input = io::large_buffer();
    let n = io::read_full(0, &mut input);
    let mut free = [0u64; Bundle::SET_WORDS * Bundle::TERMS];
    let answer = checker::check(&input[..n], &mut free);
    if has_argument(&rt, b"--rule") {
        show_rule(&input[..n], answer);
        return;
    }
    let is_dot = has_argument(&rt, b"--dot");
    graph_start(is_dot);
    Shown { answer, is_dot }.show_file(&input[..n]);
    graph_end(is_dot);
}
