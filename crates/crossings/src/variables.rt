// Whether a term is the image of a variable.
ghost use Rattle.std.specs.Prelude.{◌≡◌};
ghost use Rattle.logic.specs.ReflWalk.{image_is};

use bundle::Bundle;
use images::images::is_variable;
use logic::Image;

// Whether the term r is the image of variable x.
pub fn image_is(bundle: &Bundle, image: Image, x: usize, r: usize) -> bool
    ensures { result ≡ image_is bundle.now image x r }
{
    match image {
        Image::Own => is_variable(bundle, r, x),
        Image::Gives(t) => t == r,
    }
}
