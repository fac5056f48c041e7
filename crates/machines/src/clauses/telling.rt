// Telling two states of a rule apart.
ghost use Rattle.std.specs.Prelude.{◌≡◌};
ghost use Rattle.automata.specs.Refusals.{said};
ghost use Rattle.machines.specs.Promised.{ToldShortest};
ghost use Rattle.machines.specs.TellCall.{told_apart};
ghost use Rattle.reduction.specs.Words.{word_length, word_placed};
ghost use Rattle.tables.specs.Values.{machine};

use super::Rule;
use super::states::test_states;
use crate::sizes::test_sizes;
use automata::limits::{MARKS, MOVES, WORD_ENTRIES};
use automata::moves::Move;
use automata::refusals::Refusal;
use guards::algebra::Algebra;
use reduction::words::place_word;
use tables::machines::Machine;

impl Rule {
    // Writes the word that tells two states apart from place 0 of the buffer, and answers its length: the contract says what the
    // whole buffer holds. The states and buffers are of no other call, so that a struct of them would be made for this one alone.
    pub fn tell_apart<A: Algebra>(
        &self,
        alg: &A,
        table: &[Move<A::Guard>],
        first: usize,
        second: usize,
        word: &mut [A::Entry],
        marks: &mut [u8],
    ) -> Result<usize, Refusal<A::Entry>>
        ensures answer { said result ≡ word_length (told_apart (A.model alg.now) (machine self.now.counts self.now.endings table.now) table.now first second word.old marks.old) }
        ensures buffer { word.new ≡ word_placed (told_apart (A.model alg.now) (machine self.now.counts self.now.endings table.now) table.now first second word.old marks.old) word.old }
        ensures told { ToldShortest (A.model alg.now) self.now table.now first second word.old marks.old word.new result }
    {
        test_sizes(&[
            (table.len(), MOVES),
            (word.len(), WORD_ENTRIES),
            (marks.len(), MARKS),
        ])?;
        let machine = Machine::new(self.counts, self.endings, table)?;
        test_states(machine.states, first, second)?;
        place_word(alg, &machine, first, second, word, marks)
    }
}
