// Completing a clause.
ghost use Rattle.std.specs.Prelude.{◌≤◌, length};
ghost use Rattle.automata.specs.Limits.{most_moves, most_parts, most_written, mark_bytes};
ghost use Rattle.completion.specs.Completing.{Completed};
ghost use Rattle.tables.specs.Machines.{machine_of};

use crate::reached::ReachedStates;
use crate::reaching::ClauseGraph;
use crate::rests::Rest;
use automata::limits::{MOVES, STATES};
use automata::moves::Move;
use guards::algebra::Algebra;
use tables::lists::{Full, SliceVec};
use tables::machines::Machine;

// The checked clause of a clause without clashes, its moves at the front of the spare table; refused where a rest or the moves
// have no room. The buffers come one by one, since the result borrows one of them alone.
pub fn complete<'a, 's, A: Algebra>(
    alg: &'a A,
    clause: &'a Machine<'a, A::Guard>,
    spare: &'s mut [Move<A::Guard>],
    marks: &mut [u8],
    parts: &mut [A::Guard],
    others: &mut [A::Guard],
) -> Result<Machine<'s, A::Guard>, Full>
    requires few { clause.now.states ≤ most_written }
    requires sizes { (most_moves ≤ length spare.old) × (mark_bytes ≤ length marks.old) × (most_parts ≤ length parts.old) × (most_parts ≤ length others.old) }
    ensures { Completed (A.model alg.now) (machine_of clause.now) result }
{
    let mut buffer = [0; STATES];
    let reached = ReachedStates::new(ClauseGraph { alg, clause }, marks, &mut buffer);
    let mut rest = Rest::new(parts, others);
    let mut moves = SliceVec::with_room(spare, MOVES);
    reached.place_states(&mut rest, &mut moves)?;
    let states = reached.place_sink(&mut moves)?;
    Ok(Machine {
        states,
        endings: clause.endings.reordered(reached.work.found()),
        moves: moves.into_slice(),
    })
}
