// Rest lists: what is left of guards without others.
ghost use Rattle.std.specs.Prelude.{◌≡◌, ◌≤◌, [], length};
ghost use Rattle.automata.specs.Checking.{live, without};
ghost use Rattle.automata.specs.Limits.{most_parts};
ghost use Rattle.completion.specs.Rests.{Narrows, Leaves};
ghost use Rattle.tables.specs.Machines.{machine_of};

use crate::reaching::ClauseGraph;
use automata::limits::PARTS;
use guards::algebra::{Algebra, Parts};
use std::marker::Model;
use std::mem;
use tables::lists::{Full, SliceVec};

// A rest list, for at most so many guards. Clauses see it as the list of its guards.
#[derive(Drop)]
pub struct Rest<'a, A: Algebra> {
    guards: SliceVec<'a, A::Guard>,
    // Where the next list grows.
    other: SliceVec<'a, A::Guard>,
}

impl<'a, A: Algebra> Model for Rest<'a, A> {
    ghost use Rattle.std.specs.Prelude.{◌≡◌, ◌≤◌, List, length};
    ghost use Rattle.automata.specs.Limits.{most_parts};

    ghost Value = { List A.Guard };

    ghost view = { λ r. r.guards.items };

    ghost invariant = { λ r. (r.guards.room ≡ most_parts) × (r.other.room ≡ most_parts) };
}

// Puts the parts of each guard without `b` in place of what the list holds, in order.
fn put_parts<A: Algebra>(
    alg: &A,
    guards: &[A::Guard],
    b: A::Guard,
    list: &mut SliceVec<A::Guard>,
) -> Result<(), Full>
    requires { list.old.room ≡ most_parts }
    ensures narrows { Narrows (A.model alg.now) b guards.now list.new.items result }
    ensures room { list.new.room ≡ most_parts }
{
    list.clear();
    for a in guards {
        list.extend(Parts::new(alg, *a, b))?;
    }
    Ok(())
}

impl<'a, A: Algebra> Rest<'a, A> {
    // No guards; the buffers have their least sizes.
    pub(crate) fn new(parts: &'a mut [A::Guard], others: &'a mut [A::Guard]) -> Rest<'a, A>
        requires parts { most_parts ≤ length parts.old }
        requires others { most_parts ≤ length others.old }
        ensures { result ≡ [] }
    {
        Rest {
            guards: SliceVec::with_room(parts, PARTS),
            other: SliceVec::with_room(others, PARTS),
        }
    }

    // The guards, in order.
    pub(crate) fn guards(&self) -> &[A::Guard]
        ensures { result.now ≡ self.now }
    {
        self.guards.as_slice()
    }

    // Replaces each guard by its parts without `b`, in order.
    fn narrow(&mut self, alg: &A, b: A::Guard) -> Result<(), Full>
        ensures { Narrows (A.model alg.now) b self.old self.new result }
    {
        put_parts(alg, self.guards.as_slice(), b, &mut self.other)?;
        mem::swap(&mut self.guards, &mut self.other);
        Ok(())
    }

    // Makes it what the live moves of the state leave of the whole guard, each in turn.
    pub(crate) fn leave(&mut self, graph: &ClauseGraph<A>, state: usize) -> Result<(), Full>
        ensures { let alg = A.model graph.now.alg.now in Leaves alg (live alg (machine_of graph.now.clause.now) state) self.new result }
    {
        self.guards.clear();
        self.guards.push(graph.alg.whole())?;
        for line in graph.live_moves(state) {
            self.narrow(graph.alg, line.guard)?;
        }
        Ok(())
    }
}
