// The checks 1 to 6, on the lent file in place: the file as a whole, links, symbols and variables.
#![tactic(auto)]

ghost use Rattle.std.specs.Prelude.{◌≡◌};
ghost use Rattle.logic.specs.Failures.{fault_in};
ghost use Rattle.logic.specs.Tests.{first_fault};
ghost use Rattle.declarations.specs.Sections.{record_fault, declared_fault};

pub mod header; // header.rt: the file as a whole, 1 to 4
pub mod records; // records.rt: one link, 5; one symbol or variable, 6

use bundle::Bundle;
use logic::checks::Failure;

// The sections that come before the terms.
#[derive(Clone, Copy)]
pub enum Section {
    Links,
    Symbols,
    Variables,
}

// The first bad one of the first n records of a section.
pub fn section_fault(bundle: &Bundle, section: Section, n: usize) -> Result<(), Failure>
    ensures { fault_in result ≡ first_fault (record_fault bundle.now section) n }
{
    for record in 1..=n {
        if let Err(check) = records::record_fault(bundle, section, record) {
            return Err(Failure { check, record });
        }
    }
    Ok(())
}

// The first bad record of links, symbols and variables.
pub fn sections_fault(bundle: &Bundle) -> Result<(), Failure>
    ensures { fault_in result ≡ declared_fault bundle.now }
{
    section_fault(bundle, Section::Links, bundle.links())?;
    section_fault(bundle, Section::Symbols, bundle.symbols())?;
    section_fault(bundle, Section::Variables, bundle.variables())
}
