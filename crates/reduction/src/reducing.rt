// Reducing a machine: the states that are kept, and their moves under new numbers.
ghost use Rattle.std.specs.Prelude.{◌≡◌, ◌≤◌, length};
ghost use Rattle.automata.specs.Limits.{most_moves, mark_bytes};
ghost use Rattle.tables.specs.Machines.{machine_of};
ghost use Rattle.reduction.specs.Reducing.{ReducedAs};

use crate::classes::Classes;
use crate::rounds::mark_rounds;
use automata::limits::STATES;
use automata::moves::Move;
use guards::algebra::Algebra;
use tables::counts::Counts;
use tables::endings::Endings;
use tables::machines::Machine;

// Reduces the machine, and writes its moves from place 0 of the table.
pub fn reduce<A: Algebra>(
    alg: &A,
    product: &Machine<A::Guard>,
    marks: &mut [u8],
    table: &mut [Move<A::Guard>],
) -> (Counts, Endings)
    requires sizes { (mark_bytes ≤ length marks.old) × (most_moves ≤ length table.old) }
    ensures { ReducedAs (A.model alg.now) (machine_of product.now) table.old result table.new }
{
    let rounds = mark_rounds(alg, product, marks);
    let mut buffer = [0; STATES];
    let classes = Classes::new(&rounds, product.states, &mut buffer);
    let counts = Counts {
        states: classes.kept.len(),
        moves: classes.place_moves(product.moves, table),
    };
    (counts, product.endings.reordered(classes.kept.as_slice()))
}
