// Checks 5 and 6 of one record: a link's next; sorts and lists of sorts, in symbols and variables.
ghost use Rattle.std.specs.Prelude.{◌≡◌, cond, leb};
ghost use Rattle.bundle.specs.Links.{items};
ghost use Rattle.bundle.specs.Lists.{each};
ghost use Rattle.logic.specs.Failures.{check_number, number_in};
ghost use Rattle.logic.specs.Symbols.{item_sort, is_sort};
ghost use Rattle.logic.specs.Checks.{good_next};
ghost use Rattle.declarations.specs.Sections.{record_fault};

use super::Section;
use bundle::Bundle;
use logic::checks::Check;

// Whether the next of link i of so many is 0, or above i and a link.
fn good_next(links: usize, i: usize, next: usize) -> bool
    ensures { result ≡ good_next links i next }
{
    (next == 0) | ((i < next) & (next <= links))
}

// Whether a number is a sort: 0 truth, 1 item.
fn is_sort(s: usize) -> bool
    ensures { result ≡ leb s item_sort }
{
    s <= 1
}

// Whether each item of a list is a sort.
fn all_sorts(bundle: &Bundle, list: usize) -> bool
    ensures { result ≡ each (is_sort bundle.now) (items bundle.now list) }
{
    for s in bundle.items(list) {
        if !is_sort(s) {
            return false;
        }
    }
    true
}

// The check, where it is not passed.
fn unless(passed: bool, check: Check) -> Result<(), Check>
    ensures { number_in result ≡ cond passed 0 (check_number check) }
{
    if passed { Ok(()) } else { Err(check) }
}

// What is wrong with record i of a section.
pub fn record_fault(bundle: &Bundle, section: Section, i: usize) -> Result<(), Check>
    ensures { number_in result ≡ record_fault bundle.now section i }
{
    match section {
        Section::Links => {
            let next = bundle.link_field(i, 1);
            unless(good_next(bundle.links(), i, next), Check::Next)
        }
        Section::Symbols => {
            let result = bundle.symbol_field(i, 0);
            let sorts = bundle.symbol_field(i, 1);
            unless(
                is_sort(result) & (sorts <= bundle.links()) & all_sorts(bundle, sorts),
                Check::Declared,
            )
        }
        Section::Variables => {
            let sort = bundle.variable_sort(i);
            unless(is_sort(sort), Check::Declared)
        }
    }
}
