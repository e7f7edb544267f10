// The names of declared variables and symbols: a letter and a numeral.
ghost use Rattle.std.specs.Prelude.{◌≡◌, ◌≤◌};
ghost use Rattle.lexing.specs.Counted.{number_within, variable_among, symbol_among, place_of, known_among, Numbered};

// The number after a letter, where it is low to high. It ends as soon as the number is too high.
fn number_within(run: &[u8], letter: u8, low: usize, high: usize) -> Option<usize>
    requires { (high ≤ 4294967327) × (1 ≤ low) }
    ensures { Numbered (number_within letter low high run.now) result }
{
    if run.len() < 2 {
        return None;
    }
    if run[0] != letter {
        return None;
    }
    if run[1] == b'0' {
        return None;
    }
    let mut n = 0;
    for digit in &run[1..] {
        let c = usize::from(*digit);
        if c < 48 {
            return None;
        }
        if c > 57 {
            return None;
        }
        n = 10 * n + (c - 48);
        if n > high {
            return None;
        }
    }
    if n < low {
        return None;
    }
    Some(n)
}

// The variable that is called so, v1 to v and their count.
pub fn variable_called(variables: usize, run: &[u8]) -> Option<usize>
    requires { variables ≤ 4294967295 }
    ensures { Numbered (variable_among variables run.now) result }
{
    number_within(run, b'v', 1, variables)
}

// The symbol that is called so, f33 to f and 32 + their count.
pub fn symbol_called(symbols: usize, run: &[u8]) -> Option<usize>
    requires { symbols ≤ 4294967295 }
    ensures { Numbered (symbol_among symbols run.now) result }
{
    number_within(run, b'f', 33, 32 + symbols)
}

// Whether a name is a declared one of the kind due: 0 either, 1 a symbol, 2 a variable. A number, since that is what the table of spots has for it.
// By two counts, as a scan has them.
pub fn known_as(symbols: usize, variables: usize, place: usize, run: &[u8]) -> bool
    requires { (symbols ≤ 4294967295) × (variables ≤ 4294967295) }
    ensures { result ≡ known_among symbols variables (place_of place) run.now }
{
    let variable = variable_called(variables, run).is_some();
    let symbol = symbol_called(symbols, run).is_some();
    if place == 1 {
        return symbol;
    }
    if place == 2 {
        return variable;
    }
    variable | symbol
}
