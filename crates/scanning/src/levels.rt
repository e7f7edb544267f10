// The spots held for open brackets: the last ones in the lent area, those of the levels below it found again by a second scan.
ghost use Rattle.std.specs.Prelude.{◌≡◌, ◌+◌, ◌-◌, ◌≤◌, ◌<◌, length, set};
ghost use Rattle.spots.specs.Spots.{cell};
ghost use Rattle.spots.specs.Levels.{pushed, stored_at};
ghost use Rattle.spots.specs.Turns.{Closing, Popped};

use crate::guesses::find_levels;
use crate::tables::cell;
use spots::Place;

// An opening bracket: its spot is held, and the scan goes inside. A full area is begun anew.
pub fn push(area: &mut [u8], p: Place, inside: usize) -> Place
    requires { (p.spot < 20) × (p.height ≤ length area.old) × (0 < length area.old) × (p.base + p.height ≤ 18446744073709551614) }
    ensures placed { result ≡ pushed (length area.old) p inside }
    ensures stored { area.new ≡ set area.old (stored_at (length area.old) p.height) (cell p.spot 10) }
{
    let height = p.height;
    let base = p.base;
    let hold = cell(p.spot * 14 + 10);
    if height < area.len() {
        area[height] = hold;
        return Place {
            spot: inside,
            height: height + 1,
            base,
        };
    }
    area[0] = hold;
    Place {
        spot: inside,
        height: 1,
        base: base + height,
    }
}

// The lowest of the levels that are found again where `base` brackets are open.
fn lowest(base: usize) -> usize
    ensures { result ≡ base - 32768 }
{
    if base > 32768 {
        return base - 32768;
    }
    0
}

// A closing bracket: the scan goes on where the table has it, or at the spot held, which is found again where the area does not hold it.
pub fn pop(text: &[u8], area: &mut [u8], p: Place, back: usize, i: usize) -> Place
    requires { Closing text.now area.old p back i }
    ensures { Popped text.now area.old area.new p i result }
{
    let height = p.height;
    let base = p.base;
    if height == 0 {
        if back < 20 {
            return Place {
                spot: back,
                height: 0,
                base: base - 1,
            };
        }
        let low = lowest(base);
        find_levels(text, area, i, low, base);
        let below = base - low - 1;
        let held = usize::from(area[below]);
        return Place {
            spot: held,
            height: below,
            base: low,
        };
    }
    let below = height - 1;
    if back < 20 {
        return Place {
            spot: back,
            height: below,
            base,
        };
    }
    let held = usize::from(area[below]);
    Place {
        spot: held,
        height: below,
        base,
    }
}
