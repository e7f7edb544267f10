// White space and comments skipped; brackets.
ghost use Rattle.std.specs.Prelude.{IfSome, ◌≡◌, ◌≤◌, length, get_or};
ghost use Rattle.pass_tokens.specs.Tokens.{LineEnd, Blanks, Opened, Closed};

use super::Text;

// Byte i; 0 past the text's end: it is compared with brackets, and 0 is none. By its place, which may be any.
pub fn byte_at(text: &[u8], i: usize) -> u8
    ensures { result ≡ get_or text.now i 0 }
{
    if i < text.len() { text[i] } else { 0 }
}

// The end of the line of byte i, on which a comment goes on from there. By a place: with a slice from there on the pass took 1.5 % more instructions.
fn line_end(text: &[u8], i: usize) -> usize
    requires { i ≤ length text.now }
    ensures { LineEnd text.now i result }
{
    for j in i..text.len() {
        let c = text[j];
        if c == 10 {
            return j;
        }
        if c == 13 {
            return j;
        }
    }
    text.len()
}

impl<'a> Text<'a> {
    // Goes past white space and comments.
    pub fn skip_blanks(&mut self)
        ensures { Blanks self.old self.new }
    {
        let text = self.bytes;
        let mut j = self.at;
        // No `for`: a comment is skipped as a whole.
        while j < text.len() {
            let c = text[j];
            if c > 32 {
                if c != b';' {
                    break;
                }
                j = line_end(text, j + 1);
            } else {
                if c != 32 {
                    if (c != 10) & (c != 13) & (c != 9) {
                        break;
                    }
                }
                j += 1;
            }
        }
        self.at = j;
    }

    // Goes past the opening bracket that stands next, and past white space and comments after it.
    pub fn open(&mut self) -> Option<()>
        ensures { IfSome result (λ _. Opened self.old self.new) }
    {
        if self.first() != b'(' {
            return None;
        }
        self.skip();
        self.skip_blanks();
        Some(())
    }

    // Goes past the closing bracket that stands next, after white space and comments.
    pub fn close(&mut self) -> Option<()>
        ensures { IfSome result (λ _. Closed self.old self.new) }
    {
        self.skip_blanks();
        if self.first() != b')' {
            return None;
        }
        self.skip();
        Some(())
    }
}
