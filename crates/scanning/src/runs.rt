// Blanks and runs of symbol characters, by places in the text: the byte's number is what a refusal tells.
ghost use Rattle.std.specs.Prelude.{◌≡◌, ◌≤◌, length};
ghost use Rattle.spots.specs.Runs.{lexeme_from, run_end, sort_start};

use lexing::runs::{Class, class_of, in_common};

// The first byte of a lexeme from a byte on, behind white space and comments; or the text's length. No `position`: whether a byte is skipped hangs on those
// before it, which its test would have to keep.
pub fn lexeme_from(text: &[u8], from: usize) -> usize
    requires { from ≤ length text.now }
    ensures { result ≡ lexeme_from text.now from }
{
    let mut comment = false;
    for j in from..text.len() {
        let class = class_of(text[j]);
        if !(comment | class.is_blank()) {
            return j;
        }
        comment = match class {
            Class::LineEnd => false,
            Class::Semicolon => true,
            _ => comment,
        };
    }
    text.len()
}

// The byte behind the run from a byte on. As lexing's, which takes what is left of a text, and no place. No `position`: it counts from `from` and gives `None`
// for the text's end, so that both would be put back behind it; a refused text took 0.5 % more instructions (of both).
pub fn run_end(text: &[u8], from: usize) -> usize
    requires { from ≤ length text.now }
    ensures { result ≡ run_end text.now from }
{
    for j in from..text.len() {
        let class = class_of(text[j]);
        if !class.goes_on() {
            return j;
        }
    }
    text.len()
}

// How many bytes of a run may start a sort.
pub fn sort_start(run: &[u8]) -> usize
    ensures { result ≡ sort_start run.now }
{
    if run.len() == 0 {
        return 0;
    }
    if run[0] == b'B' {
        return in_common(run, b"Bool");
    }
    in_common(run, b"Item")
}
