// One word.
ghost use Rattle.std.specs.Prelude.{◌≡◌, ◌≤◌, ◌<◌, length};
ghost use Rattle.spots.specs.Runs.{part};
ghost use Rattle.spots.specs.Judgement.{declared_by, viable_bytes, word_met};

use crate::runs::sort_start;
use crate::tables::cell;
use lexing::names::known_as;
use lexing::words::{Word, word_of};
use logic::checks::{Check, Failure};

// How many bytes of a run could still become a word that is due at a spot.
fn viable_bytes(run: &[u8], spot: usize) -> usize
    requires { spot < 20 }
    ensures { (result ≡ viable_bytes spot run.now) × (result ≤ length run.now) }
{
    let growth = usize::from(cell(spot * 14 + 11));
    if growth == 0 {
        return 0;
    }
    if growth == 1 {
        return run.len();
    }
    sort_start(run)
}

// A run at a spot: the spot after it, or 20 or 19 with the byte.
pub fn word(
    text: &[u8],
    symbols: usize,
    variables: usize,
    spot: usize,
    start: usize,
    end: usize,
) -> Result<usize, Failure>
    requires { (spot < 20) × (start ≤ end) × (end ≤ length text.now) × (symbols ≤ 4294967295) × (variables ≤ 4294967295) }
    ensures { result ≡ word_met (declared_by symbols variables) spot start (part text.now start end) }
{
    let row = spot * 14;
    let run = &text[start..end];
    let word = word_of(run);
    let next = usize::from(cell(row + word.code()));
    if next >= 20 {
        let viable = viable_bytes(run, spot);
        return Err(Failure {
            check: Check::Text,
            record: start + viable,
        });
    }
    if let Word::Name(_) = word {
        let kind = usize::from(cell(row + 12));
        let known = known_as(symbols, variables, kind, run);
        if !known {
            return Err(Failure {
                check: Check::Name,
                record: start,
            });
        }
    }
    Ok(next)
}
