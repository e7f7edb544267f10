// What is said of a REFL that fails: the pair where its walk ends, and why; or that its walk is too long.

use super::walk::first_difference;
use bundle::Bundle;
use logic::Image;
use show_pairs::pairs::Reason;
use show_text::out;

// The image of the variable is another term, or the variable itself.
fn other_image(context: usize, x: usize, image: Image) {
    match image {
        Image::Own => out::print(format_args!("the image of v{x} in c{context} is v{x}")),
        Image::Gives(t) => out::print(format_args!("the image of v{x} in c{context} is t{t}")),
    }
}

// Why the walk ends at a pair, a table of words; x is the left variable, where it is one.
fn why(context: usize, right: usize, x: usize, reason: Reason) {
    match reason {
        Reason::Kind => out::text(b"these are terms of different kinds"),
        Reason::Symbol => out::text(b"these apply different symbols"),
        Reason::Count => out::text(b"these have different numbers of arguments"),
        Reason::Sorts => out::text(
            b"these bind different numbers of variables, or variables of different sorts",
        ),
        Reason::Unmatched(y) => {
            // v0 where there is none.
            let y = y.unwrap_or(0);
            out::print(format_args!(
                "v{x} is bound, and t{right} is not v{y}, the variable of the matching binder"
            ));
        }
        Reason::Hidden(y) => {
            out::print(format_args!(
                "v{x} is bound, and a nearer binder on the right hides v{y}, the variable of the matching one"
            ));
        }
        Reason::Image(image) => other_image(context, x, image),
        Reason::Capture(y) => {
            out::print(format_args!(
                "v{y} is free in t{right}, and a binder crossed on the right captures it"
            ));
        }
        Reason::Spent => out::text(b"there is no difference"),
    }
}

// 13: the walk of a REFL ends at a difference.
pub fn failed_walk(bundle: &Bundle, context: usize, left: usize, right: usize) {
    let end = first_difference(bundle, context, left, right);
    let x = bundle.term_field(end.left, 1);
    out::print(format_args!(
        " is REFL, and t{left} is not taken to t{right} by the images in c{context}: the walk ends at t{} and t{}, where ",
        end.left, end.right
    ));
    match end.reason {
        Some(reason) => why(context, end.right, x, reason),
        None => out::text(b"there is no difference"),
    }
}

// 21: the walk of a REFL would be too long.
pub fn spent_walk(left: usize, right: usize) {
    out::print(format_args!(
        " is REFL, and its walk from t{left} and t{right} would visit more than 4,096 pairs: hand over smaller steps"
    ));
}
