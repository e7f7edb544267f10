// How a line is shown around a byte: at most 60 bytes before it and 40 after it, control bytes as '?', and under it a line with a mark.
ghost use Rattle.std.specs.Prelude.{◌≡◌, ◌+◌, ◌++◌, [], ◌∷◌, ◌≤◌, length, take, map};
ghost use Rattle.text_places.specs.Shown.{goes_on, shown_byte, under_byte, under};

// A part that is shown has at most so many bytes before the mark's byte, and in all. Where it starts and stops is said by places in the text, since a byte's
// place is what is asked about.
pub const BACK: usize = 60;

pub const SHOWN: usize = 100;

// Whether a byte goes on a character of UTF-8.
fn goes_on(b: u8) -> bool
    ensures { result ≡ goes_on b }
{
    (b >= 128) & (b < 192)
}

// Where to show a line from: its start, or near the byte `at`, at the start of a character.
pub fn shown_from(text: &[u8], start: usize, at: usize) -> usize
    requires { (start ≤ at) × (at ≤ length text.now) }
    ensures { (start ≤ result) × (result ≤ at) × (at ≤ result + 60) }
{
    if at - start <= BACK {
        return start;
    }
    for j in at - BACK..at {
        if !goes_on(text[j]) {
            return j;
        }
    }
    at
}

// Where to stop: the line's end, or near the byte `at`, after a whole character.
pub fn shown_to(text: &[u8], at: usize, end: usize) -> usize
    requires { (at ≤ end) × (end ≤ length text.now) }
    ensures { (at ≤ result) × (result ≤ end) × (result ≤ at + 40) }
{
    let room = SHOWN - BACK;
    if end - at <= room {
        return end;
    }
    for j in (at + 1..at + room + 1).rev() {
        if !goes_on(text[j]) {
            return j;
        }
    }
    at
}

// A byte as it is shown: a tab and what is no control byte as it is.
fn shown_byte(b: u8) -> u8
    ensures { result ≡ shown_byte b }
{
    if b == 9 {
        return b;
    }
    if b < 32 {
        return b'?';
    }
    if b == 127 {
        return b'?';
    }
    b
}

// A part of a line as it is shown, into an area. Gives the number of its bytes.
pub fn shown_length(part: &[u8], line: &mut [u8; 128]) -> usize
    requires { length part.now ≤ 100 }
    ensures few { result ≤ 128 }
    ensures room { length line.new ≡ 128 }
    ensures bytes { take result line.new ≡ map shown_byte part.now }
{
    for (n, b) in part.iter().enumerate() {
        line[n] = shown_byte(*b);
    }
    part.len()
}

// The same, and gives these bytes: what the area then holds is said above.
pub fn shown_line<'a>(part: &[u8], line: &'a mut [u8; 128]) -> &'a [u8]
    requires { length part.now ≤ 100 }
    ensures { result.now ≡ map shown_byte part.now }
{
    let n = shown_length(part, line);
    &line[..n]
}

// What stands under a character.
fn under_byte(b: u8) -> u8
    ensures { result ≡ under_byte b }
{
    if b == 9 {
        return 9;
    }
    b' '
}

// What stands under a part, and then the mark, into an area: tabs as tabs, a space for any other character. Gives the number of these bytes.
#[tactic(auto, using(crate::proofs::ShownLaws::marking_more, crate::proofs::ShownLaws::marking_on), unfolding(crate::specs::Shown::under))]
pub fn mark_length(part: &[u8], line: &mut [u8; 128]) -> usize
    requires { length part.now ≤ 60 }
    ensures few { result ≤ 128 }
    ensures room { length line.new ≡ 128 }
    ensures bytes { take result line.new ≡ under part.now ++ (94 ∷ []) }
{
    let mut n = 0;
    for b in part {
        if !goes_on(*b) {
            line[n] = under_byte(*b);
            n += 1;
        }
    }
    line[n] = b'^';
    n + 1
}

// The same, and gives these bytes.
pub fn mark_line<'a>(part: &[u8], line: &'a mut [u8; 128]) -> &'a [u8]
    requires { length part.now ≤ 60 }
    ensures { result.now ≡ under part.now ++ (94 ∷ []) }
{
    let n = mark_length(part, line);
    &line[..n]
}
