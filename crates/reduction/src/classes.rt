// Classes: the states that a reduction keeps, and which of them stands for each state.
ghost use Rattle.std.specs.Prelude.{◌≡◌, ℕ, ◌<◌, ◌≤◌, false, map, length, nat_eq, slice_index_or};
ghost use Rattle.std.specs.List.{list_any};
ghost use Rattle.automata.specs.Reduction.{class_of, redirected};
ghost use Rattle.tables.specs.Endings.{holds};
ghost use Rattle.reduction.specs.Marks.{apart_by};
ghost use Rattle.reduction.specs.Placed.{Placed};
ghost use Rattle.reduction.specs.Reducing.{kept_states, kept_with, moves_kept};

use crate::marks::PairMarks;
use automata::moves::Move;
use tables::lists::SliceVec;

// The kept states, lowest first, each apart from the others by the marks.
#[derive(Drop)]
pub struct Classes<'a, 'm> {
    pub marks: &'a PairMarks<'m>,
    pub kept: SliceVec<'a, usize>,
}

impl<'a, 'm> Classes<'a, 'm> {
    // Keeps states below the count from the lowest up.
    pub(crate) fn new(
        marks: &'a PairMarks<'m>,
        states: usize,
        buffer: &'a mut [usize],
    ) -> Classes<'a, 'm>
        requires { states ≤ length buffer.old }
        ensures marks { result.marks.now ≡ marks.now }
        ensures kept { result.kept.items ≡ kept_states marks.now states }
    {
        let mut classes = Classes {
            marks,
            kept: SliceVec::new(buffer),
        };
        for state in 0..states {
            classes.keep(state);
        }
        classes
    }

    // The place of the first kept state from which the state is not apart; how many are kept, where it is apart from all. It is a
    // number there too, as in the definition of a reduced move, which would take an Option apart at once.
    pub(crate) fn class_of(&self, state: usize) -> usize
        ensures { result ≡ class_of (apart_by self.now.marks.now) self.now.kept.items state }
    {
        let kept = self.kept.as_slice();
        kept.iter()
            .position(|first| !self.marks.is_apart(*first, state))
            .unwrap_or(kept.len())
    }

    // Keeps the state, if it is apart from each kept one.
    fn keep(&mut self, state: usize)
        requires { length self.old.kept.items < self.old.kept.room }
        ensures marks { self.new.marks ≡ self.old.marks }
        ensures kept { let old = self.old in
            self.new.kept ≡ record { items = kept_with old.marks.now old.kept.items state; room = old.kept.room } }
    {
        if self.class_of(state) == self.kept.len() {
            let kept = self.kept.push(state).is_ok();
            prove!(kept);
        }
    }

    // Whether the state is kept.
    pub(crate) fn contains(&self, state: usize) -> bool
        ensures { result ≡ list_any (λ first. nat_eq first state) self.now.kept.items }
    {
        self.kept.as_slice().contains(&state)
    }

    // The move between the classes of its states.
    pub(crate) fn redirect<G: Copy>(&self, line: &Move<G>) -> Move<G>
        ensures { result ≡ redirected (apart_by self.now.marks.now) self.now.kept.items line.now }
    {
        Move {
            from: self.class_of(line.from),
            guard: line.guard,
            to: self.class_of(line.to),
        }
    }

    // Writes the moves of kept states, between classes, from place 0 of the table; how many they are.
    pub(crate) fn place_moves<G: Copy>(&self, moves: &[Move<G>], table: &mut [Move<G>]) -> usize
        requires { length moves.now ≤ length table.old }
        ensures { Placed (moves_kept self.now.marks.now self.now.kept.items moves.now) table.old table.new result }
    {
        // A list in the table would not tell that what stands past the moves stays: so they are counted here.
        let mut count = 0;
        for line in moves {
            if self.contains(line.from) {
                table[count] = self.redirect(line);
                count += 1;
            }
        }
        count
    }
}
