// Digests, by which records are filed.
ghost use Rattle.std.specs.Prelude.{◌≡◌, ◌<◌};
ghost use Rattle.bundle.specs.Filed.{digests, mix};

use std::marker::Model;

// There are so many digests.
pub const DIGESTS: usize = 2048;

// A digest, of which a clause sees the number.
#[derive(Clone, Copy)]
pub struct Digest {
    number: usize,
}

impl Model for Digest {
    ghost use Rattle.std.specs.Prelude.{ℕ, ◌<◌};
    ghost use Rattle.bundle.specs.Filed.{digests};

    ghost Value = { ℕ };

    ghost view = { λ d. d.number };

    ghost inverse = { λ n. record { number = n } };

    ghost invariant = { λ d. d.number < digests };
}

impl Digest {
    // The digest of nothing.
    pub fn empty() -> Digest
        ensures { result ≡ 0 }
    {
        Digest { number: 0 }
    }

    // With one number more.
    pub fn mixed(self, x: usize) -> Digest
        ensures { result ≡ mix self x }
    {
        Digest {
            number: (self.number * 1267 + x % DIGESTS) % DIGESTS,
        }
    }

    // Its place in an array that has one for each digest.
    pub fn place(self) -> usize
        ensures { (result ≡ self) × (result < digests) }
    {
        self.number
    }
}
