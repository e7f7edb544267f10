// The second scan: from the text's start, with brackets counted, it finds again the spots held at the levels from `low` up to before `top`.
ghost use Rattle.std.specs.Prelude.{◌≡◌, ◌+◌, ◌-◌, ◌*◌, ◌≤◌, ◌<◌, length, get_or};
ghost use Rattle.spots.specs.Spots.{table, cell};
ghost use Rattle.spots.specs.Guesses.{guess_column, if_between, guess_inside, guess_stored, GuessTurned, LevelsFound};

use crate::runs::{lexeme_from, run_end};
use crate::tables::cell;
use lexing::runs::{Class, class_of};
use lexing::words::{Word, word_of};
use spots::Guess;

// A cell of the table, for what may be no spot.
fn guess_cell(spot: u8, column: usize) -> u8
    requires { column < 14 }
    ensures { result ≡ get_or table (spot * 14 + column) 0 }
{
    let at = usize::from(spot) * 14 + column;
    if at < 294 {
        return cell(at);
    }
    0
}

// The column of the table for a run.
fn guess_column(run: &[u8]) -> usize
    ensures { (result ≡ guess_column run.now) × (result < 14) }
{
    match word_of(run) {
        Word::Sort(_) => 13,
        Word::Name(_) => {
            if run.len() == 0 {
                return 13;
            }
            if run[0] == b'f' {
                return 9;
            }
            13
        }
        word => word.code(),
    }
}

// The functions for a run and for brackets take `spot` and `depth`, and no `Guess`: a turn takes it apart once, and a closing bracket is asked of one level
// down. The levels, from `low` up to before `top`, are two numbers that stay the same for a scan.

// The spot after a run.
fn guess_word(run: &[u8], spot: u8, depth: usize, low: usize, top: usize) -> u8
    ensures { result ≡ if_between low top depth (cell spot (guess_column run.now)) spot }
{
    if depth < low {
        return spot;
    }
    if depth < top {
        let column = guess_column(run);
        return guess_cell(spot, column);
    }
    spot
}

// The spot inside an opening bracket, 20, which is none of them, where it is not known; its own is held.
fn guess_inside(area: &mut [u8], spot: u8, depth: usize, low: usize, top: usize) -> u8
    requires { (top ≤ low + length area.old) × (depth ≤ 18446744073709551614) }
    ensures spot { result ≡ guess_inside low top depth spot }
    ensures stored { area.new ≡ guess_stored area.old low top depth spot }
{
    if depth < low {
        if depth + 1 == low {
            return 20;
        }
        return spot;
    }
    if depth < top {
        let inside = guess_cell(spot, 0);
        area[depth - low] = guess_cell(spot, 10);
        return inside;
    }
    spot
}

// The spot behind a closing bracket.
fn guess_behind(area: &[u8], spot: u8, depth: usize, low: usize, top: usize) -> u8
    requires { top ≤ low + length area.now }
    ensures { result ≡ if_between low top depth (get_or area.now (depth - low) 0) spot }
{
    if depth < low {
        return spot;
    }
    if depth < top {
        return area[depth - low];
    }
    spot
}

// One lexeme of the second scan.
fn guess_turn(text: &[u8], area: &mut [u8], g: Guess, i: usize, low: usize, top: usize) -> Guess
    requires { (i < length text.now) × (top ≤ low + length area.old) × (g.depth ≤ i) }
    ensures { GuessTurned text.now area.old area.new low top g i result }
{
    let depth = g.depth;
    let spot = g.spot;
    let class = class_of(text[i]);
    if let Class::Symbol = class {
        let end = run_end(text, i + 1);
        let after = guess_word(&text[i..end], spot, depth, low, top);
        let next = lexeme_from(text, end);
        return Guess {
            next,
            depth,
            spot: after,
        };
    }
    let next = lexeme_from(text, i + 1);
    if let Class::Opening = class {
        let inside = guess_inside(area, spot, depth, low, top);
        return Guess {
            next,
            depth: depth + 1,
            spot: inside,
        };
    }
    if depth == 0 {
        return Guess { next, depth, spot };
    }
    let behind = guess_behind(area, spot, depth - 1, low, top);
    Guess {
        next,
        depth: depth - 1,
        spot: behind,
    }
}

// The spots held at the levels from `low` up to before `top`, where a scan stands at byte `stop`.
pub fn find_levels(text: &[u8], area: &mut [u8], stop: usize, low: usize, top: usize)
    requires { (stop ≤ length text.now) × (top ≤ low + length area.old) }
    ensures { LevelsFound text.now area.new low top stop }
{
    let mut g = Guess {
        next: 0,
        depth: 0,
        spot: 1,
    };
    let mut i = lexeme_from(text, 0);
    // No `for`: a turn goes on to the next lexeme.
    while i < stop {
        g = guess_turn(text, area, g, i, low, top);
        i = g.next;
    }
}
