// The line and the column of a byte, and the end of its line. By places in the text, since a byte's place is what is asked about.
ghost use Rattle.std.specs.Prelude.{◌≡◌, ◌≤◌, ◌<◌, length};
ghost use Rattle.text_places.specs.Places.{ends_line, line_of, column_of, start_of, LineEnds, is_space, ContentEnds};

// Lines and columns count from 1; `start` is the line's first byte.
#[derive(Clone, Copy)]
pub struct Place {
    pub line: usize,
    pub column: usize,
    pub start: usize,
}

// Whether a line ends with byte k: at 10, and at 13 where no 10 follows.
#[tactic(auto, unfolding(crate::specs::Places::ends_line))]
fn ends_line(text: &[u8], k: usize) -> bool
    requires { k < length text.now }
    ensures { result ≡ ends_line text.now k }
{
    if text[k] == 10 {
        return true;
    }
    if text[k] != 13 {
        return false;
    }
    let next = k + 1;
    if next < text.len() {
        return text[next] != 10;
    }
    true
}

// The place of a byte, or of the text's end.
#[tactic(auto, unfolding(crate::specs::Places::line_of, crate::specs::Places::start_of))]
pub fn place_of(text: &[u8], at: usize) -> Place
    requires { at ≤ length text.now }
    ensures { (result.line ≡ line_of text.now at) × (result.column ≡ column_of text.now at)
        × (result.start ≡ start_of text.now at) × (result.start ≤ at) }
{
    let mut line = 1;
    let mut start = 0;
    for j in 0..at {
        if ends_line(text, j) {
            line += 1;
            start = j + 1;
        }
    }
    Place {
        line,
        column: at - start + 1,
        start,
    }
}

// The first 10 or 13 from a byte on, or the text's end. The pass has its own, whose clause speaks of what a comment hides.
pub fn line_end(text: &[u8], at: usize) -> usize
    requires { at ≤ length text.now }
    ensures { LineEnds text.now at result }
{
    match text[at..].iter().position(|b| (*b == 10) | (*b == 13)) {
        Some(n) => at + n,
        None => text.len(),
    }
}

// Whether a byte is white space.
fn is_space(b: u8) -> bool
    ensures { result ≡ is_space b }
{
    (b == 9) | (b == 10) | (b == 13) | (b == 32)
}

// The end of the text without the white space after it.
pub fn content_end(text: &[u8]) -> usize
    ensures { ContentEnds text.now result }
{
    match text.iter().rposition(|b| !is_space(*b)) {
        Some(j) => j + 1,
        None => 0,
    }
}
