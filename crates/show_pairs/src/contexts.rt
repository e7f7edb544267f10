// The image of a variable in a context, as document 01 has it: from the context up, the first entry that mentions the variable decides.

use bundle::Bundle;
use logic::Image;
use logic::kinds::Entry;

// What stands in the second list beside x in the first.
pub fn beside(bundle: &Bundle, first: usize, second: usize, x: usize) -> Option<usize> {
    for (v, t) in bundle.items(first).zip(bundle.items(second)) {
        if v == x {
            return Some(t);
        }
    }
    None
}

// The image of variable x in a context. As the scratch's `image`, over a file.
pub fn image(bundle: &Bundle, context: usize, x: usize) -> Image {
    let mut c = context;
    // No `for`: each context names its parent.
    while c != 0 {
        let first = bundle.context_field(c, 1);
        match Entry::of(bundle.context_field(c, 0)) {
            Some(Entry::Fixes) => {
                if first == x {
                    return Image::Own;
                }
            }
            _ => {
                if let Some(t) = beside(bundle, first, bundle.context_field(c, 2), x) {
                    return Image::Gives(t);
                }
            }
        }
        let parent = bundle.context_field(c, 3);
        if parent >= c {
            return Image::Own;
        }
        c = parent;
    }
    Image::Own
}
