// Machines as their tables hold them.
ghost use Rattle.std.specs.Prelude.{◌≡◌, ℕ, ◌<◌, ◌≤◌, true, false, length};
ghost use Rattle.std.specs.List.{list_any};
ghost use Rattle.automata.specs.Limits.{most_states, most_moves};
ghost use Rattle.automata.specs.Running.{stray};
ghost use Rattle.tables.specs.Endings.{holds};
ghost use Rattle.tables.specs.Values.{Within};

use crate::counts::Counts;
use crate::endings::Endings;
use automata::moves::Move;
use automata::refusals::Refusal;

// A machine by its count of states, its endings, and its counted moves in a table. No move names a state that is not below the
// count.
#[derive(Drop)]
pub struct Machine<'a, G> {
    pub states: usize,
    pub endings: Endings,
    pub moves: &'a [Move<G>],
    ghost some: { 0 < states },
    ghost few: { states ≤ most_states },
    ghost few_moves: { length moves.now ≤ most_moves },
    ghost below: { (k : ℕ) → holds endings k ≡ true → k < states },
    ghost no_stray: { list_any (stray states) moves.now ≡ false },
}

// Whether the move names a state that is not below the count.
fn is_stray<G>(line: &Move<G>, states: usize) -> bool
    ensures { result ≡ stray states line.now }
{
    line.from >= states || line.to >= states
}

// Whether a move names a state that is not below the count.
pub fn has_stray<G>(moves: &[Move<G>], states: usize) -> bool
    ensures { result ≡ list_any (stray states) moves.now }
{
    moves.iter().any(|line| is_stray(line, states))
}

impl<'a, G> Machine<'a, G> {
    ghost use Rattle.tables.specs.Machines.{IsMachine};

    // The machine of these values and their table; refused where a counted move names a state that is not below the count.
    pub fn new<E>(
        counts: Counts,
        endings: Endings,
        table: &'a [Move<G>],
    ) -> Result<Machine<'a, G>, Refusal<E>>
        requires within { Within most_states counts endings }
        requires room { counts.moves ≤ length table.now }
        ensures { IsMachine counts endings table.now result }
    {
        let moves = &table[..counts.moves];
        if has_stray(moves, counts.states) {
            return Err(Refusal::StrayMove);
        }
        Ok(Machine {
            states: counts.states,
            endings,
            moves,
        })
    }

    // How many states and moves the machine has.
    pub fn counts(&self) -> Counts
        ensures { result ≡ record { states = self.now.states; moves = length self.now.moves.now } }
    {
        Counts {
            states: self.states,
            moves: self.moves.len(),
        }
    }
}
