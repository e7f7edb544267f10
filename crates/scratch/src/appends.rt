// One record or one list appended to a section that has room. Here and in the crates above a word is a `usize` with its bound in the clause: with `u32`
// each caller, whose counts and fields are `usize`, would write `as_word(x)`, which asks for the same bound. The appends of records are alike: each names
// its own fields and its own section.
ghost use Rattle.std.specs.Prelude.{◌≡◌, [], ◌∷◌, ◌≤◌, ◌<◌, length};
ghost use Rattle.bundle.specs.Words.{largest_word};
ghost use Rattle.bundle.specs.Limits.{limits};
ghost use Rattle.bundle.specs.RecordWords.{as_term, TermFits};
ghost use Rattle.logic.specs.Longer.{with_variables, with_terms, with_links};

use super::Scratch;
use super::pairs::half;
use bundle::Counts;
use bundle::records::{ContextWords, StepWords, TermWords};
use bundle::words::as_word;
use logic::Image;

// What contexts, steps and lists are appended to: a scratch, filed or not.
pub trait Appends {
    ghost use Rattle.std.specs.Prelude.{ℕ, ◌≡◌, [], ◌∷◌, ◌+◌, ◌≤◌, ◌<◌, length};
    ghost use Rattle.bundle.specs.Words.{largest_word};
    ghost use Rattle.bundle.specs.Bundle.{Bundle};
    ghost use Rattle.bundle.specs.Limits.{limits, Within};
    ghost use Rattle.bundle.specs.File.{own_counts};
    ghost use Rattle.bundle.specs.RecordWords.{as_context, as_step, ContextFits, StepFits};
    ghost use Rattle.logic.specs.declared.Image.TheVariants.{Gives};
    ghost use Rattle.logic.specs.Contexts.{image};
    ghost use Rattle.logic.specs.Longer.{with_contexts, with_steps, add_list, list_start};
    ghost use Rattle.scratch.specs.Stack.{halves_of};

    // The bundle that it stands for.
    ghost bundle: { Self → Bundle };

    fn counts(&self) -> Counts
        ensures { (result ≡ own_counts (bundle self.now)) × Within result };

    // The image of variable x in a context.
    fn image(&self, context: usize, x: usize) -> Image
        ensures { (result ≡ image (bundle self.now) context x) × ((t : ℕ) → result ≡ Gives t → t ≤ largest_word) };

    // Appends the upper halves of pairs, or the lower, as a list. Its first link, 0 for the empty list.
    fn push_halves(&mut self, pairs: &[u64], upper: bool) -> usize
        requires { length (bundle self.old).links + length pairs.now ≤ limits.links }
        ensures { (bundle self.new ≡ add_list (bundle self.old) (halves_of upper pairs.now))
            × (result ≡ list_start (bundle self.old) (halves_of upper pairs.now)) };

    // Appends a list of one value. Its link.
    fn push_one(&mut self, value: usize) -> usize
        requires { (length (bundle self.old).links < limits.links) × (value ≤ largest_word) }
        ensures { (bundle self.new ≡ add_list (bundle self.old) (value ∷ [])) × (result ≡ list_start (bundle self.old) (value ∷ [])) };

    fn append_context(&mut self, context: ContextWords)
        requires { (length (bundle self.old).contexts < limits.contexts) × ContextFits context }
        ensures { bundle self.new ≡ with_contexts (bundle self.old) (as_context context ∷ []) };

    fn append_step(&mut self, step: StepWords)
        requires { (length (bundle self.old).steps < limits.steps) × StepFits step }
        ensures { bundle self.new ≡ with_steps (bundle self.old) (as_step step ∷ []) };
}

impl<'a> Scratch<'a> {
    pub fn append_variable(&mut self, sort: usize)
        requires { (length self.old.variables < limits.variables) × (sort ≤ largest_word) }
        ensures { self.new ≡ with_variables self.old (sort ∷ []) }
    {
        let count = self.counts.variables;
        let at = Counts::largest().variables_at() + count;
        self.words[at] = as_word(sort);
        self.counts.variables = count + 1;
    }

    pub fn append_term(&mut self, term: TermWords)
        requires { (length self.old.terms < limits.terms) × TermFits term }
        ensures { self.new ≡ with_terms self.old (as_term term ∷ []) }
    {
        let count = self.counts.terms;
        let at = Counts::largest().terms_at() + 4 * count;
        self.words[at] = as_word(term.kind);
        self.words[at + 1] = as_word(term.first);
        self.words[at + 2] = as_word(term.second);
        self.words[at + 3] = as_word(term.third);
        self.counts.terms = count + 1;
    }

    pub fn append_link(&mut self, value: usize, next: usize)
        requires { (length self.old.links < limits.links) × (value ≤ largest_word) × (next ≤ largest_word) }
        ensures { self.new ≡ with_links self.old (record { value = value; next = next } ∷ []) }
    {
        let count = self.counts.links;
        let at = Counts::largest().links_at() + 2 * count;
        self.words[at] = as_word(value);
        self.words[at + 1] = as_word(next);
        self.counts.links = count + 1;
    }
}

impl<'a> Appends for Scratch<'a> {
    ghost use Rattle.bundle.specs.Bundle.{Bundle};

    ghost bundle = { λ (b : Bundle). b };

    fn counts(&self) -> Counts {
        self.counts()
    }

    fn image(&self, context: usize, x: usize) -> Image {
        self.view().image(context, x)
    }

    fn push_halves(&mut self, pairs: &[u64], upper: bool) -> usize {
        let n = pairs.len();
        let start = if n == 0 { 0 } else { self.links() + 1 };
        for (at, pair) in pairs.iter().enumerate() {
            let value = half(*pair, upper);
            let next = if at + 1 < n { self.links() + 2 } else { 0 };
            self.append_link(value, next);
        }
        start
    }

    fn push_one(&mut self, value: usize) -> usize {
        self.append_link(value, 0);
        self.links()
    }

    fn append_context(&mut self, context: ContextWords) {
        let count = self.counts.contexts;
        let at = Counts::largest().contexts_at() + 4 * count;
        self.words[at] = as_word(context.kind);
        self.words[at + 1] = as_word(context.first);
        self.words[at + 2] = as_word(context.second);
        self.words[at + 3] = as_word(context.parent);
        self.counts.contexts = count + 1;
    }

    fn append_step(&mut self, step: StepWords) {
        let count = self.counts.steps;
        let at = Counts::largest().steps_at() + 5 * count;
        self.words[at] = as_word(step.rule);
        self.words[at + 1] = as_word(step.context);
        self.words[at + 2] = as_word(step.left);
        self.words[at + 3] = as_word(step.right);
        self.words[at + 4] = as_word(step.premises);
        self.counts.steps = count + 1;
    }
}
