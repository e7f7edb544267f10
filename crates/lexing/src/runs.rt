// Runs of symbol characters: the class of a byte, and a run compared with a word.
ghost use Rattle.std.specs.Prelude.{◌≡◌, cond, ◌<◌, ◌||◌, eqb, ltb};
ghost use Rattle.bundle.specs.Lists.{same_list};
ghost use Rattle.grammar.specs.Bytes.{class_of, symbol, other};
ghost use Rattle.grammar.specs.Parser.{starts};
ghost use Rattle.lexing.specs.Codes.{class_code};
ghost use Rattle.lexing.specs.Common.{common};
ghost use Rattle.lexing.specs.Words.{class_in};

// The class of a byte.
#[derive(Clone, Copy, Debug, PartialEq, Eq)]
pub enum Class {
    Space,
    LineEnd,
    Semicolon,
    Opening,
    Closing,
    Digit,
    Symbol,
    Other,
}

impl Class {
    // The number of the class, by which tables are read.
    #[tactic(auto, unfolding(crate::specs::Codes::class_code))]
    pub fn code(self) -> usize
        ensures { result ≡ class_code (class_in self) }
    {
        match self {
            Class::Space => 0,
            Class::LineEnd => 1,
            Class::Semicolon => 2,
            Class::Opening => 3,
            Class::Closing => 4,
            Class::Digit => 5,
            Class::Symbol => 6,
            Class::Other => 7,
        }
    }

    // Whether no lexeme starts with the byte: white space, or a comment's start.
    #[tactic(auto, unfolding(crate::specs::Codes::class_code))]
    pub fn is_blank(self) -> bool
        ensures { result ≡ ltb (class_code (class_in self)) 3 }
    {
        match self {
            Class::Space | Class::LineEnd | Class::Semicolon => true,
            Class::Opening | Class::Closing | Class::Digit | Class::Symbol | Class::Other => false,
        }
    }

    // Whether a run goes on with the byte.
    #[tactic(auto, unfolding(crate::specs::Codes::class_code))]
    pub fn goes_on(self) -> bool
        ensures { result ≡ eqb (class_code (class_in self)) 5 || eqb (class_code (class_in self)) 6 }
    {
        match self {
            Class::Digit | Class::Symbol => true,
            Class::Space
            | Class::LineEnd
            | Class::Semicolon
            | Class::Opening
            | Class::Closing
            | Class::Other => false,
        }
    }
}

// The class of a byte that is a symbol character, or of no other use.
fn symbol_if(p: bool) -> Class
    ensures { class_in result ≡ cond p symbol other }
{
    if p {
        return Class::Symbol;
    }
    Class::Other
}

// The class of a byte below the digits.
fn low_class(x: u8) -> Class
    requires { x < 48 }
    ensures { class_in result ≡ class_of x }
{
    if x == 32 {
        return Class::Space;
    }
    if x == 40 {
        return Class::Opening;
    }
    if x == 41 {
        return Class::Closing;
    }
    if x == 10 {
        return Class::LineEnd;
    }
    if x == 13 {
        return Class::LineEnd;
    }
    if x == 9 {
        return Class::Space;
    }
    symbol_if((x == 33) | ((x > 35) & (x < 39)) | ((x > 41) & (x != 44)))
}

// The class of a byte, as the grammar has it: by ranges, those of letters first.
pub fn class_of(x: u8) -> Class
    ensures { class_in result ≡ class_of x }
{
    if x > 96 {
        return symbol_if((x < 123) | (x == 126));
    }
    if x > 59 {
        return symbol_if((x < 91) | (x == 94) | (x == 95));
    }
    if x < 48 {
        return low_class(x);
    }
    if x == 59 {
        return Class::Semicolon;
    }
    if x == 58 {
        return Class::Other;
    }
    Class::Digit
}

// The number of a byte's class.
pub fn class_code(x: u8) -> usize
    ensures { result ≡ class_code (class_of x) }
{
    class_of(x).code()
}

// How many bytes a run and a word have in common at their start: where a run that is refused goes wrong. No `zip` and `position`: where all are alike there
// is `None`, and the shorter length would be found besides.
pub fn in_common(run: &[u8], other: &[u8]) -> usize
    ensures { result ≡ common run.now other.now }
{
    for j in 0..run.len() {
        if j >= other.len() {
            return j;
        }
        if run[j] != other[j] {
            return j;
        }
    }
    run.len()
}

// Whether a run is a word. Not `run == other`, which was tried: a text that is refused took 1.4 % more instructions.
pub fn is_word(run: &[u8], other: &[u8]) -> bool
    ensures { result ≡ same_list run.now other.now }
{
    let n = in_common(run, other);
    (n == run.len()) & (run.len() == other.len())
}

// Whether a run starts a word.
pub fn starts_word(run: &[u8], other: &[u8]) -> bool
    ensures { result ≡ starts run.now other.now }
{
    other.starts_with(run)
}
