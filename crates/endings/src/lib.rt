// The ends of formulas: what has been read is placed as a term. `None` as soon as a section would pass its limit.
#![tactic(auto)]

ghost use Rattle.std.specs.Prelude.{◌≡◌, true, false, ◌≤◌, length};
ghost use Rattle.bundle.specs.Words.{largest_word};
ghost use Rattle.logic.specs.Symbols.{signature_of, result_sort};
ghost use Rattle.logic.specs.Named.{binder_in};
ghost use Rattle.scratch.specs.Stack.{halves_of};
ghost use Rattle.expansion.specs.Placed.{place_application, place_binder, place_let};
ghost use Rattle.reading.specs.Local.{alone_sort, alone_term};
ghost use Rattle.reading.specs.Records.{file};
ghost use Rattle.lexing.specs.Words.{word_in};
ghost use Rattle.heads.specs.HeadSymbols.{symbol_for, variable_for};
ghost use Rattle.heads.specs.Places.{PartEnd};
ghost use Rattle.endings.specs.ReadOutcomes.{TermOutcome, TermFits};

use bundle::Bundle;
use filing::Filed;
use heads::places::part_end;
use heads::words::{symbol_for, variable_for};
use lexing::words::Word;
use logic::kinds::Binder;
use placing::{place_application, place_binder, place_let, place_variable};
use sorting::sorts::{result_sort, signature_of};

// What reading a formula gives: its term and sort, and the text behind it.
#[derive(Clone, Copy)]
pub struct ReadTerm<'a> {
    pub term: usize,
    pub sort: usize,
    pub rest: &'a [u8],
}

// What reading parts gives: where the stack of pairs ends, the sort of the first (0 where there is none, as definitions have it), and the text behind them.
#[derive(Clone, Copy)]
pub struct ReadParts<'a> {
    pub height: usize,
    pub sort: usize,
    pub rest: &'a [u8],
}

// The result sort of symbol f.
fn symbol_sort(bundle: &Bundle, f: usize) -> usize
    ensures { result ≡ result_sort bundle.now (signature_of bundle.now f) }
{
    let s = signature_of(bundle, f);
    result_sort(bundle, s)
}

// A word alone, with the text behind it: a variable, or a symbol with no arguments.
pub fn place_word<'a>(
    bundle: &Bundle,
    word: Word<'_>,
    filed: &mut Filed<'_>,
    rest: &'a [u8],
) -> Option<ReadTerm<'a>>
    ensures { TermOutcome
        (file (alone_term (variable_for (length bundle.now.variables) (word_in word.entry))
        (symbol_for (length bundle.now.symbols) (word_in word.entry) 0)) filed.old)
        (alone_sort bundle.now (variable_for (length bundle.now.variables) (word_in word.entry))
        (symbol_for (length bundle.now.symbols) (word_in word.entry) 0))
        rest.now filed.new result × TermFits result }
{
    if let Some(x) = variable_for(bundle.variables(), word) {
        let sort = bundle.variable_sort(x);
        let term = place_variable(filed, x)?;
        return Some(ReadTerm { term, sort, rest });
    }
    apply_parts(bundle, word, filed, &[], 0, rest)
}

// The symbol that a word stands for, at the terms of its parts: the upper halves of pairs. The first part is of the sort `first`.
pub fn apply_parts<'a>(
    bundle: &Bundle,
    word: Word<'_>,
    filed: &mut Filed<'_>,
    pairs: &[u64],
    first: usize,
    rest: &'a [u8],
) -> Option<ReadTerm<'a>>
    ensures { TermOutcome
        (place_application filed.old (symbol_for (length bundle.now.symbols) (word_in word.entry) first) (halves_of true pairs.now))
        (result_sort bundle.now (signature_of bundle.now (symbol_for (length bundle.now.symbols) (word_in word.entry) first)))
        rest.now filed.new result × TermFits result }
{
    let f = symbol_for(bundle.symbols(), word, first);
    let sort = symbol_sort(bundle, f);
    let term = place_application(filed, f, pairs)?;
    Some(ReadTerm { term, sort, rest })
}

// A binder of the variable x in a body. Its sort is truth.
pub fn bind_term<'a>(
    filed: &mut Filed<'_>,
    q: Binder,
    x: usize,
    body: ReadTerm<'a>,
) -> Option<ReadTerm<'a>>
    requires { (x ≤ largest_word) × (body.term ≤ largest_word) }
    ensures { TermOutcome (place_binder filed.old (binder_in q) x body.entry.term) 0 body.entry.rest.now filed.new result × TermFits result }
{
    let term = place_binder(filed, q, x, body.term)?;
    Some(ReadTerm {
        term,
        sort: 0,
        rest: body.rest,
    })
}

// A let in a body, alike to a binder, with another record: the variables are the lower halves of pairs, the bound terms their upper halves.
pub fn let_term<'a>(
    filed: &mut Filed<'_>,
    pairs: &[u64],
    body: ReadTerm<'a>,
) -> Option<ReadTerm<'a>>
    requires { body.term ≤ largest_word }
    ensures { TermOutcome (place_let filed.old (halves_of false pairs.now) (halves_of true pairs.now) body.entry.term) body.entry.sort
        body.entry.rest.now filed.new result × TermFits result }
{
    let term = place_let(filed, body.term, pairs)?;
    Some(ReadTerm {
        term,
        sort: body.sort,
        rest: body.rest,
    })
}

// A formula with the closing bracket after it.
pub fn closed<'a>(body: ReadTerm<'a>) -> ReadTerm<'a>
    ensures { (result.term ≡ body.entry.term) × (result.sort ≡ body.entry.sort) × PartEnd true body.entry.rest.now result.rest.now }
{
    ReadTerm {
        term: body.term,
        sort: body.sort,
        rest: part_end(body.rest, true),
    }
}
