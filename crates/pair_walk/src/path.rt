// The path of a walk: the binders that it has crossed, and the agenda of what is left to do.
ghost use Rattle.std.specs.Prelude.{◌≡◌, [], ◌∷◌, ◌+◌, ◌*◌, ◌≤◌, ◌<◌, List, length};
ghost use Rattle.bundle.specs.Bundle.{term_of};
ghost use Rattle.free_variables.specs.TermSets.{free_in};
ghost use Rattle.logic.specs.Lists.{Number};
ghost use Rattle.logic.specs.ReflWalk.{lefts, rights, pair_limit};
ghost use Rattle.images.specs.ContextRows.{image_at};
ghost use Rattle.crossings.specs.Places.{stamp, HaveCrossed};
ghost use Rattle.crossings.specs.Pairs.{meets_by};
ghost use Rattle.pair_walk.specs.Agenda.{Frame, leave, crossed_by, opened, IsPending, rest, advanced, IsTop, LeaveHeld, Path, with_frames};

use super::frames::{advance, open, push};
use bundle::Bundle;
use crossings::Binders;
use std::marker::Model;

// The words of the frame on top, as they stand in the agenda: l is 0 where variables are left. No enum, which each turn would make and take apart.
#[derive(Clone, Copy)]
pub struct Top {
    pub l: usize,
    pub r: usize,
    pub i: usize,
    pub j: usize,
    pub e: usize,
}

// An agenda with room for `most` frames, of which it has `height`; they cross `depth` binders. A clause sees the frames, the top first.
#[derive(Drop)]
pub struct Path<'s, 'a> {
    binders: Binders<'s, 'a>,
    agenda: &'a mut [u16],
    most: usize,
    height: usize,
    depth: usize,
}

impl<'s, 'a> Model for Path<'s, 'a> {
    ghost use Rattle.pair_walk.specs.Agenda.{Path, frames, Kept};

    ghost Value = { Path };

    ghost view = { λ p. record { sets = p.binders.sets; most = p.most; frames = frames p.agenda.now p.height } };

    ghost invariant = { λ p. Kept p.binders p.agenda.now p.most p.height p.depth };
}

impl<'s, 'a> Path<'s, 'a> {
    pub fn of(binders: Binders<'s, 'a>, agenda: &'a mut [u16], most: usize) -> Path<'s, 'a>
        requires { HaveCrossed binders [] × (5 * most ≤ length agenda.old) × (most ≤ pair_limit)
            × (length binders.sets.bundle.variables ≤ 64 * binders.sets.n) }
        ensures { result ≡ record { sets = binders.entry.sets; most = most; frames = [] } }
    {
        Path {
            binders,
            agenda,
            most,
            height: 0,
            depth: 0,
        }
    }

    pub fn bundle(&self) -> &'s Bundle<'s>
        ensures { result.now ≡ self.now.sets.bundle }
    {
        self.binders.bundle()
    }

    // Whether the pair of terms l and r meets by itself.
    pub fn meets(&self, images: &[u16], context: usize, l: usize, r: usize) -> bool
        requires { length self.now.sets.bundle.variables * (context + 1) ≤ length images.now }
        ensures { result ≡ meets_by (free_in self.now.sets) (image_at (length self.now.sets.bundle.variables) images.now context) self.now.sets.bundle
            (term_of self.now.sets.bundle l) (crossed_by self.now.frames) r }
    {
        self.binders.pair_meets(images, context, l, r)
    }

    // The frame on top, where there is one.
    pub fn top(&self) -> Option<Top>
        ensures { IsTop self.now.frames result }
    {
        if self.height == 0 {
            return None;
        }
        let from = 5 * (self.height - 1);
        Some(Top {
            l: usize::from(self.agenda[from]),
            r: usize::from(self.agenda[from + 1]),
            i: usize::from(self.agenda[from + 2]),
            j: usize::from(self.agenda[from + 3]),
            e: usize::from(self.agenda[from + 4]),
        })
    }

    // Takes the frame of a pair off.
    pub fn pop(&mut self)
        requires { IsPending self.old.frames }
        ensures { self.new ≡ with_frames self.old (rest self.old.frames) }
    {
        self.height -= 1; // no binder is left: `depth` stays
    }

    // Puts other links into the frame of a pair on top.
    pub fn advance(&mut self, i: usize, j: usize)
        requires { IsPending self.old.frames × (i ≤ 65535) × (j ≤ 65535) }
        ensures { self.new ≡ with_frames self.old (advanced i j self.old.frames) }
    {
        advance(self.agenda, self.height - 1, i, j);
    }

    // Crosses the variables x and y, with a frame that has the places that they had before.
    pub fn cross(&mut self, x: usize, y: usize)
        requires { (length self.old.frames < self.old.most) × Number (length self.old.sets.bundle.variables) x
            × Number (length self.old.sets.bundle.variables) y }
        ensures { let ps = crossed_by self.old.frames in
            self.new ≡ with_frames self.old (leave x y (stamp (lefts ps) x) (stamp (rights ps) y) ∷ self.old.frames) }
    {
        prove!(self.binders.bundle().variables() <= Bundle::VARIABLES);
        let before = self.binders.cross(x, y, self.depth);
        push(self.agenda, self.height, 0, x, y, before.left, before.right);
        self.height += 1;
        self.depth += 1;
    }

    // Takes that back, where the frame on top says so.
    pub fn uncross(&mut self, x: usize, y: usize, left: usize, right: usize)
        requires { (fs : List Frame) × (self.old.frames ≡ leave x y left right ∷ fs)
            × LeaveHeld (length self.old.sets.bundle.variables) x y left right (crossed_by fs) }
        ensures { self.new ≡ with_frames self.old (rest self.old.frames) }
    {
        self.binders.uncross(x, y, left, right);
        self.height -= 1;
        self.depth -= 1;
    }

    // What is left to walk of a pair that has met is put on top.
    pub fn open(&mut self, l: usize, r: usize)
        requires { (length self.old.frames < self.old.most)
            × (((term_of self.old.sets.bundle l).kind ≡ 1 → ⊥)
            → Number (length self.old.sets.bundle.terms) l × Number (length self.old.sets.bundle.terms) r) }
        ensures { self.new ≡ with_frames self.old (opened self.old.sets.bundle l r self.old.frames) }
    {
        self.height = open(self.binders.bundle(), self.agenda, self.height, l, r);
    }
}
