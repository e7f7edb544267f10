// Fields of records, by the record's number. See `term_field` and the like in specs/Bundle.antt for the order of the fields.
ghost use Rattle.std.specs.Prelude.{◌≡◌, ◌+◌, ◌-◌, ◌*◌, ◌≤◌, ◌<◌, length};
ghost use Rattle.bundle.specs.Words.{word_at};
ghost use Rattle.bundle.specs.Bundle.{at, symbol_of, sort_of_variable, term_of, link_of, context_of, step_of, symbol_field, term_field, link_field, context_field};
ghost use Rattle.bundle.specs.Bundle.{step_field};
ghost use Rattle.bundle.specs.File.{tab};
ghost use Rattle.bundle.specs.RecordWords.{as_term, as_step};

use super::Bundle;
use super::words::word_at;

// The words of a term, of a context and of a step as they stand in a file, where any number may stand for a kind or a rule: so numbers, not names.
#[derive(Clone, Copy)]
pub struct TermWords {
    pub kind: usize,
    pub first: usize,
    pub second: usize,
    pub third: usize,
}

#[derive(Clone, Copy)]
pub struct ContextWords {
    pub kind: usize,
    pub first: usize,
    pub second: usize,
    pub parent: usize,
}

#[derive(Clone, Copy)]
pub struct StepWords {
    pub rule: usize,
    pub context: usize,
    pub left: usize,
    pub right: usize,
    pub premises: usize,
}

// The words of a link: its item, and its next.
#[derive(Clone, Copy)]
pub struct LinkWords {
    pub value: usize,
    pub next: usize,
}

// Word k of record i of a section of `count` records of `size` words, with which `section` starts. By numbers, here and below: those are what is asked, and
// one that no record has gives 0; a slice of the record would be made for one word of it.
fn field(section: &[u8], size: usize, count: usize, i: usize, k: usize) -> usize
    requires { (k < size) × (4 * (size * count) ≤ length section.now) }
    ensures { result ≡ at 0 (tab (λ j. word_at section.now (size * j + k)) count) i }
{
    if i == 0 {
        return 0;
    }
    if i > count {
        return 0;
    }
    word_at(section, size * (i - 1) + k)
}

// The words of step i, and of link i, where the section has it.
fn step_in(section: &[u8], i: usize) -> StepWords
    requires { (0 < i) × (20 * i ≤ length section.now) }
    ensures { let f = word_at section.now in
        let first = 5 * (i - 1) in
        (result.rule ≡ f (first + 0)) × (result.context ≡ f (first + 1)) × (result.left ≡ f (first + 2)) × (result.right ≡ f (first + 3))
        × (result.premises ≡ f (first + 4)) }
{
    let first = 5 * (i - 1);
    StepWords {
        rule: word_at(section, first),
        context: word_at(section, first + 1),
        left: word_at(section, first + 2),
        right: word_at(section, first + 3),
        premises: word_at(section, first + 4),
    }
}

fn link_in(section: &[u8], i: usize) -> LinkWords
    requires { (0 < i) × (8 * i ≤ length section.now) }
    ensures { let f = word_at section.now in
        let first = 2 * (i - 1) in
        (result.value ≡ f (first + 0)) × (result.next ≡ f (first + 1)) }
{
    let first = 2 * (i - 1);
    LinkWords {
        value: word_at(section, first),
        next: word_at(section, first + 1),
    }
}

// Field k of record i: a field is told by its number, as in the definitions.
impl<'a> Bundle<'a> {
    pub fn symbol_field(&self, i: usize, k: usize) -> usize
        requires { k < 2 }
        ensures { result ≡ symbol_field (symbol_of self.now i) k }
    {
        field(self.symbols, 2, self.counts.symbols, i, k)
    }

    pub fn variable_sort(&self, i: usize) -> usize
        ensures { result ≡ sort_of_variable self.now i }
    {
        field(self.variables, 1, self.counts.variables, i, 0)
    }

    pub fn term_field(&self, i: usize, k: usize) -> usize
        requires { k < 4 }
        ensures { result ≡ term_field (term_of self.now i) k }
    {
        field(self.terms, 4, self.counts.terms, i, k)
    }

    pub fn link_field(&self, i: usize, k: usize) -> usize
        requires { k < 2 }
        ensures { result ≡ link_field (link_of self.now i) k }
    {
        field(self.links, 2, self.counts.links, i, k)
    }

    pub fn context_field(&self, i: usize, k: usize) -> usize
        requires { k < 4 }
        ensures { result ≡ context_field (context_of self.now i) k }
    {
        field(self.contexts, 4, self.counts.contexts, i, k)
    }

    pub fn step_field(&self, i: usize, k: usize) -> usize
        requires { k < 5 }
        ensures { result ≡ step_field (step_of self.now i) k }
    {
        field(self.steps, 5, self.counts.steps, i, k)
    }

    // The words of term i. `View` of scratch has its own, alike: the fields are read from another memory.
    pub fn term_words(&self, i: usize) -> TermWords
        ensures { as_term result ≡ term_of self.now i }
    {
        TermWords {
            kind: self.term_field(i, 0),
            first: self.term_field(i, 1),
            second: self.term_field(i, 2),
            third: self.term_field(i, 3),
        }
    }

    // The words of step i.
    pub fn step_words(&self, i: usize) -> StepWords
        ensures { as_step result ≡ step_of self.now i }
    {
        StepWords {
            rule: self.step_field(i, 0),
            context: self.step_field(i, 1),
            left: self.step_field(i, 2),
            right: self.step_field(i, 3),
            premises: self.step_field(i, 4),
        }
    }

    // The same of a step that there is.
    pub fn step(&self, i: usize) -> StepWords
        requires { (i ≡ 0 → ⊥) × (i ≤ length self.now.steps) }
        ensures { as_step result ≡ step_of self.now i }
    {
        step_in(self.steps, i)
    }

    // The words of a link that there is.
    pub fn link(&self, i: usize) -> LinkWords
        requires { (i ≡ 0 → ⊥) × (i ≤ length self.now.links) }
        ensures { let link = link_of self.now i in
            (result.value ≡ link.value) × (result.next ≡ link.next) }
    {
        link_in(self.links, i)
    }
}
