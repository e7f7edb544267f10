// The free sets of all terms.
ghost use Rattle.bundle.specs.Limits.{set_words};
ghost use Rattle.free_variables.specs.FreeSets.{FreeSets};

use bundle::Bundle;

// The words of an area for the sets of the most terms that a bundle may have.
pub const WORDS: usize = Bundle::SET_WORDS * Bundle::TERMS;

// An area that holds the free sets.
pub fn free_sets(bundle: &Bundle) -> [u64; WORDS]
    ensures { FreeSets (record { bundle = bundle.now; words = result; n = set_words }) }
{
    let mut area = [0u64; WORDS];
    // The counts are within the limits: so there is room.
    let _limits = bundle.counts();
    free_variables::free_sets(bundle, &mut area, Bundle::SET_WORDS);
    area
}
