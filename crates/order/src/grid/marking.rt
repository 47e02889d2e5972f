// The marks, which tell which of the anchors reaches a block first.
ghost use Rattle.std.specs.Prelude.{◌≡◌, ◌+◌, ◌-◌, ◌*◌, ◌/◌, ◌%◌, ◌^◌, ◌<◌, ◌≤◌};
ghost use Rattle.order_theory.specs.Tables.{raised_all, handed_on, row_handed_on, leader_tested, one_row, marked_from};
ghost use Rattle.order.specs.Marks.{steps_of, RestStays};

use super::Grid;
use crate::tables::{at, put, raise};
use book::library::{Library, parents_of};

impl<B: Library> Grid<'_, B> {
    // makes the marks of a block's parents this one, where they were lower
    fn raise_parents(&mut self, name: u32, mark: u32)
        ensures { self.new ≡ record self.old {
          marks
              = raised_all self.old.width.places (B.Library.what self.old.book.now) mark (B.Library.what self.old.book.now name).parents self.old.marks;
        } }
    {
        for parent in parents_of(self.book, name) {
            let place = self.width.place_of(self.book, parent);
            raise(&mut self.marks, place, mark);
        }
    }

    // the block at a place hands its mark on to its parents
    fn hand_on(&mut self, place: usize)
        ensures { self.new ≡ record self.old {
          marks
              = handed_on self.old.width.places (B.Library.what self.old.book.now) self.old.names place self.old.marks;
        } }
    {
        let mark = at(&self.marks, place);
        if mark > 1 {
            let name = at(&self.names, place);
            self.raise_parents(name, mark);
        }
    }

    // the blocks of a round do so
    fn hand_on_row(&mut self, round: u32)
        ensures { self.new ≡ record self.old {
          marks
              = row_handed_on self.old.width.places (B.Library.what self.old.book.now) self.old.names (round * self.old.width.places)
              self.old.width.places self.old.marks;
        } }
    {
        let row = self.width.row(round);
        // the members from the last one down, by their numbers
        for i in (0..self.width.places()).rev() {
            self.hand_on(row + i);
        }
    }

    // the leader's block of an even round is the next anchor if the anchor found last reaches it
    fn test_leader(&mut self, round: u32)
        requires { self.old.anchors ≤ 2 ^ 31 }
        ensures steps { steps_of self.new
            ≡ leader_tested (round * self.old.width.places + round / 2 % self.old.width.places) (steps_of self.old) }
        ensures rest { RestStays self.old self.new }
    {
        let place = self.width.leader(round);
        let next = self.anchors + 1;
        if at(&self.marks, place) == next {
            put(&mut self.marks, place, next + 1);
            self.anchors = next;
        }
    }

    // a round: the leader is tested, if it is even, and then its blocks hand on their marks
    fn one_row(&mut self, round: u32)
        requires { self.old.anchors ≤ 2 ^ 31 }
        ensures steps { steps_of self.new
            ≡ one_row self.old.width.places (B.Library.what self.old.book.now) self.old.names round (steps_of self.old) }
        ensures rest { RestStays self.old self.new }
        ensures small { self.new.anchors ≤ self.old.anchors + 1 - round % 2 }
    {
        if round % 2 == 0 {
            self.test_leader(round);
        }
        self.hand_on_row(round);
    }

    /// Goes back from round `2 * k`, whose leader's block is the last anchor.
    pub fn mark_from(&mut self, k: u32)
        requires { k < 2 ^ 31 }
        ensures steps { steps_of self.new
            ≡ marked_from self.old.width.places (B.Library.what self.old.book.now) k self.old.names self.old.marks }
        ensures rest { RestStays self.old self.new }
    {
        self.anchors = 0;
        // back through the rounds, by their numbers
        for round in (0..2 * k + 1).rev() {
            self.one_row(round);
        }
    }
}
