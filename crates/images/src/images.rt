// Mentions and images of variables in contexts: as the lent memory has them, whatever it holds.
ghost use Rattle.std.specs.Prelude.{◌≡◌, ◌+◌, ◌*◌, ◌≤◌, length};
ghost use Rattle.logic.specs.Contexts.{is_variable};
ghost use Rattle.images.specs.ContextRows.{mention_at, image_at};

use bundle::Bundle;
use logic::kinds::Kind;
use logic::{Image, Mention};

// What a place of the table of images holds for a variable that is fixed. A term's number stands for the term, 0 for a variable that no entry
// mentions: numbers, since the table is lent words. `mention_of` gives them names.
pub const FIXED: usize = 65535;

// What the entries of a context say of variable x, of so many. By the count and the lent words: these may hold anything, and no bundle is asked.
pub fn mention_of(variables: usize, images: &[u16], context: usize, x: usize) -> Mention
    requires { variables * (context + 1) ≤ length images.now }
    ensures { result ≡ mention_at variables images.now context x }
{
    if x == 0 {
        return Mention::Absent;
    }
    if x > variables {
        return Mention::Absent;
    }
    let t = usize::from(images[variables * context + (x - 1)]);
    if t == 0 {
        return Mention::Absent;
    }
    if t == FIXED {
        return Mention::Fixed;
    }
    Mention::Replaced(t)
}

// The image of variable x in a context, of so many variables: asked as `mention_of` is.
pub fn image_of(variables: usize, images: &[u16], context: usize, x: usize) -> Image
    requires { variables * (context + 1) ≤ length images.now }
    ensures { result ≡ image_at variables images.now context x }
{
    let mention = mention_of(variables, images, context, x);
    match mention {
        Mention::Fixed => Image::Own,
        Mention::Replaced(t) => Image::Gives(t),
        Mention::Absent => Image::Own,
    }
}

// Whether term t is the variable x.
pub fn is_variable(bundle: &Bundle, t: usize, x: usize) -> bool
    ensures { result ≡ is_variable bundle.now t x }
{
    let kind = bundle.term_field(t, 0);
    let a = bundle.term_field(t, 1);
    (kind == Kind::Variable.number()) & (a == x)
}
