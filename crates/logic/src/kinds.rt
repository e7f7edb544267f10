// The kinds of terms and the entries of contexts by name, with the numbers that records have for them.
ghost use Rattle.std.specs.Prelude.{◌≡◌, [], ◌∷◌, map};
ghost use Rattle.logic.specs.Terms.{number_of, kind_of, kinds, binds, is_binder, binder};
ghost use Rattle.logic.specs.Contexts.{entry_number, entry_of, fixing, replacing};
ghost use Rattle.logic.specs.Named.{binder_in, kind_in, kind_named, entry_in, entry_named};

// ---- Terms

// What binds one variable in a body: things by name, and nothing that may be missing.
#[derive(Clone, Copy, Debug, PartialEq, Eq)]
pub enum Binder {
    ForAll,
    Exists,
    Choice,
}

impl Binder {
    // The number of its kind.
    pub fn number(self) -> usize
        ensures { result ≡ number_of (binder (binder_in self)) }
    {
        match self {
            Binder::ForAll => 3,
            Binder::Exists => 4,
            Binder::Choice => 6,
        }
    }
}

#[derive(Clone, Copy, Debug, PartialEq, Eq)]
pub enum Kind {
    Variable,
    Application,
    Binder(Binder),
    Let,
}

impl Kind {
    // How many numbers stand for kinds, from 1 on.
    pub const COUNT: usize = 6;

    // Ties their count to the kinds in specs/.
    fn numbers() -> [usize; Kind::COUNT]
        ensures { result ≡ map number_of kinds }
    {
        [1, 2, 3, 4, 5, 6]
    }

    // The kind that a number stands for. No `TryFrom`: nobody would read its error. So in `Entry` and `Rule`.
    #[tactic(auto, unfolding(crate::specs::Terms::kind_of))]
    pub fn of(number: usize) -> Option<Kind>
        ensures { kind_of number ≡ kind_named result }
    {
        match number {
            1 => Some(Kind::Variable),
            2 => Some(Kind::Application),
            3 => Some(Kind::Binder(Binder::ForAll)),
            4 => Some(Kind::Binder(Binder::Exists)),
            5 => Some(Kind::Let),
            6 => Some(Kind::Binder(Binder::Choice)),
            _ => None,
        }
    }

    // Its number.
    pub fn number(self) -> usize
        ensures { result ≡ number_of (kind_in self) }
    {
        match self {
            Kind::Variable => 1,
            Kind::Application => 2,
            Kind::Binder(binder) => binder.number(),
            Kind::Let => 5,
        }
    }

    // Whether terms of it bind one variable in a body.
    pub fn binds(self) -> bool
        ensures { result ≡ binds (kind_in self) }
    {
        match self {
            Kind::Binder(_) => true,
            Kind::Variable => false,
            Kind::Application => false,
            Kind::Let => false,
        }
    }
}

// The same of a number; one that is no kind's binds nothing.
#[tactic(auto, unfolding(crate::specs::Terms::is_binder))]
pub fn is_binder(kind: usize) -> bool
    ensures { result ≡ is_binder kind }
{
    match Kind::of(kind) {
        Some(k) => k.binds(),
        None => false,
    }
}

// ---- Contexts

// What a context does: it fixes a variable, or it replaces variables. Two things by name, as above.
#[derive(Clone, Copy, Debug, PartialEq, Eq)]
pub enum Entry {
    Fixes,
    Replaces,
}

impl Entry {
    // How many numbers stand for entries, from 1 on.
    pub const COUNT: usize = 2;

    // Ties their count to the entries in specs/.
    #[tactic(auto, unfolding(crate::specs::Contexts::entry_of))]
    fn numbers() -> [usize; Entry::COUNT]
        ensures { map entry_of result ≡ fixing ∷ replacing ∷ [] }
    {
        [1, 2]
    }

    // The entry that a number stands for.
    #[tactic(auto, unfolding(crate::specs::Contexts::entry_of))]
    pub fn of(number: usize) -> Option<Entry>
        ensures { entry_of number ≡ entry_named result }
    {
        match number {
            1 => Some(Entry::Fixes),
            2 => Some(Entry::Replaces),
            _ => None,
        }
    }

    // Its number. Written out here, in `Binder` and in `Rule`: names and numbers are each type's own.
    pub fn number(self) -> usize
        ensures { result ≡ entry_number (entry_in self) }
    {
        match self {
            Entry::Fixes => 1,
            Entry::Replaces => 2,
        }
    }
}
