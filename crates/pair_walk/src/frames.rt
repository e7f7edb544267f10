// Frames of the agenda: five words of 16 bits each. The first word is the left term of a pair, 0 where variables are left. A frame is given by its
// place in the agenda: this is the plain work below `Path`, over which the laws of frames stand.
ghost use Rattle.std.specs.Prelude.{◌≡◌, ◌∷◌, suc, ◌+◌, ◌*◌, ◌≤◌, length, get_or};
ghost use Rattle.bundle.specs.Bundle.{term_of};
ghost use Rattle.logic.specs.Lists.{Number};
ghost use Rattle.pair_walk.specs.Agenda.{frame_of, frames, opened};

use bundle::Bundle;
use logic::kinds::{Kind, is_binder};

// Puts a frame onto an agenda of height h.
pub fn push(agenda: &mut [u16], h: usize, l: usize, r: usize, i: usize, j: usize, e: usize)
    requires { (5 * h + 5 ≤ length agenda.old) × (l ≤ 65535) × (r ≤ 65535) × (i ≤ 65535) × (j ≤ 65535) × (e ≤ 65535) }
    ensures { (length agenda.new ≡ length agenda.old)
        × (frames agenda.new (suc h) ≡ frame_of l r i j e ∷ frames agenda.old h) }
{
    let from = 5 * h;
    agenda[from] = l as u16;
    agenda[from + 1] = r as u16;
    agenda[from + 2] = i as u16;
    agenda[from + 3] = j as u16;
    agenda[from + 4] = e as u16;
}

// Puts other links into the frame on an agenda of height h.
pub fn advance(agenda: &mut [u16], h: usize, i: usize, j: usize)
    requires { (5 * h + 5 ≤ length agenda.old) × (i ≤ 65535) × (j ≤ 65535) }
    ensures { (length agenda.new ≡ length agenda.old)
        × (frames agenda.new (suc h) ≡ frame_of (get_or agenda.old (5 * h) 0) (get_or agenda.old (5 * h + 1) 0) i j
        (get_or agenda.old (5 * h + 4) 0) ∷ frames agenda.old h) }
{
    let from = 5 * h;
    agenda[from + 2] = i as u16;
    agenda[from + 3] = j as u16;
}

// The height once a pair has met: what is left of it to walk is put onto the agenda. As in `pair_meets`, comparisons and no match: 11 % fewer
// instructions of a walk.
pub fn open(bundle: &Bundle, agenda: &mut [u16], h: usize, l: usize, r: usize) -> usize
    requires { (5 * h + 5 ≤ length agenda.old)
        × (((term_of bundle.now l).kind ≡ 1 → ⊥) → Number (length bundle.now.terms) l × Number (length bundle.now.terms) r) }
    ensures { (length agenda.new ≡ length agenda.old) × (result ≤ h + 1) × (frames agenda.new result ≡ opened bundle.now l r (frames agenda.old h)) }
{
    let kind = bundle.term_field(l, 0);
    if kind == Kind::Variable.number() {
        return h;
    }
    prove!(bundle.terms() <= Bundle::TERMS);
    if is_binder(kind) {
        push(agenda, h, l, r, 0, 0, 0);
        return h + 1;
    }
    let i = bundle.first_link(bundle.term_field(l, 2));
    let j = bundle.first_link(bundle.term_field(r, 2));
    if (kind == Kind::Application.number()) & (i == 0) & (j == 0) {
        return h;
    }
    prove!(bundle.links() <= Bundle::LINKS);
    push(agenda, h, l, r, i, j, 0);
    h + 1
}
