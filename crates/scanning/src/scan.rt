// One lexeme, and the scan.
ghost use Rattle.std.specs.Prelude.{◌≡◌, ◌≤◌, length};
ghost use Rattle.logic.specs.Failures.{fault_in};
ghost use Rattle.grammar.specs.Names.{resolve};
ghost use Rattle.spots.specs.Judgement.{declared_by, verdict_of};
ghost use Rattle.spots.specs.Turns.{Turning, TurnedFrom};

use crate::levels::{pop, push};
use crate::runs::{lexeme_from, run_end};
use crate::tables::cell;
use crate::words::word;
use lexing::runs::{Class, class_of};
use logic::checks::{Check, Failure};
use spots::{Place, Turn};

// One lexeme: the byte of the next and the place after it, or 20 or 19 with the byte.
fn turn(
    text: &[u8],
    symbols: usize,
    variables: usize,
    area: &mut [u8],
    p: Place,
    i: usize,
) -> Result<Turn, Failure>
    requires { Turning symbols variables text.now area.old p i }
    ensures { TurnedFrom (declared_by symbols variables) text.now area.old area.new p i result }
{
    let spot = p.spot;
    let height = p.height;
    let base = p.base;
    let unread = Failure {
        check: Check::Text,
        record: i,
    };
    let class = class_of(text[i]);
    if let Class::Symbol = class {
        let end = run_end(text, i + 1);
        let after = word(text, symbols, variables, spot, i, end)?;
        let next = lexeme_from(text, end);
        return Ok(Turn {
            next,
            place: Place {
                spot: after,
                height,
                base,
            },
        });
    }
    if let Class::Opening = class {
        let inside = usize::from(cell(spot * 14));
        if inside < 20 {
            let next = lexeme_from(text, i + 1);
            let place = push(area, p, inside);
            return Ok(Turn { next, place });
        }
        return Err(unread);
    }
    if let Class::Closing = class {
        let back = usize::from(cell(spot * 14 + 1));
        if back < 99 {
            let next = lexeme_from(text, i + 1);
            let place = pop(text, area, p, back, i);
            return Ok(Turn { next, place });
        }
        return Err(unread);
    }
    Err(unread)
}

// Whether a text of any length and nesting is read; else 19 or 20 with the byte; where so many symbols and variables are declared. Two counts, and no
// bundle: a scan takes any that a header may have, where a bundle's are within the limits.
pub fn scan(text: &[u8], symbols: usize, variables: usize, area: &mut [u8]) -> Result<(), Failure>
    requires { (32768 ≤ length area.old) × (symbols ≤ 4294967295) × (variables ≤ 4294967295) }
    ensures { fault_in result ≡ verdict_of (resolve (declared_by symbols variables) text.now) }
{
    let mut p = Place {
        spot: 1,
        height: 0,
        base: 0,
    };
    let mut i = lexeme_from(text, 0);
    // No `for`: a turn goes on to the next lexeme.
    while i < text.len() {
        let t = turn(text, symbols, variables, area, p, i)?;
        p = t.place;
        i = t.next;
    }
    let spot = p.spot;
    if spot != 0 {
        return Err(Failure {
            check: Check::Text,
            record: i,
        });
    }
    Ok(())
}
