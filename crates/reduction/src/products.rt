// The product of a rule and a checked clause.
ghost use Rattle.std.specs.Prelude.{◌≡◌, ℕ, ◌≤◌, false, map, length, slice_index_or};
ghost use Rattle.automata.specs.Limits.{most_states, most_moves, mark_bytes};
ghost use Rattle.automata.specs.Product.{chosen};
ghost use Rattle.tables.specs.Endings.{holds};
ghost use Rattle.tables.specs.Machines.{machine_of};
ghost use Rattle.reduction.specs.Products.{ProductBuilt};

use crate::pairing::PairGraph;
use crate::reached::ReachedPairs;
use automata::joins::JoinBy;
use automata::moves::Move;
use automata::pairs::StatePair;
use automata::refusals::Refusal;
use guards::algebra::Algebra;
use tables::endings::Endings;
use tables::machines::Machine;
use tables::worklists::Worklist;

// Whether a pair is an ending, by whether its states are.
fn is_ending(way: JoinBy, in_rule: bool, in_clause: bool) -> bool
    ensures { result ≡ chosen way in_rule in_clause }
{
    match way {
        JoinBy::Both => in_rule && in_clause,
        JoinBy::Either => in_rule || in_clause,
        JoinBy::Except => in_rule && !in_clause,
    }
}

// The places of the pairs that are endings.
fn pair_endings(way: JoinBy, rule: Endings, clause: Endings, pairs: &[StatePair]) -> Endings
    requires { length pairs.now ≤ most_states }
    ensures { let ends = map (λ x. chosen way (holds rule x.rule) (holds clause x.clause)) pairs.now in
        (k : ℕ) → holds result k ≡ slice_index_or ends k false }
{
    Endings::places(pairs, move |pair| {
        is_ending(way, rule.contains(pair.rule), clause.contains(pair.clause))
    })
}

// Builds the product of a rule and a clause, its moves at the front of the spare table; refused where too many pairs are
// reached, or else where there are too many moves. The buffers come one by one, since the result borrows one of them alone.
pub fn build_product<'a, 's, A: Algebra>(
    alg: &'a A,
    way: JoinBy,
    rule: &'a Machine<'a, A::Guard>,
    clause: &'a Machine<'a, A::Guard>,
    spare: &'s mut [Move<A::Guard>],
    marks: &mut [u8],
    pairs: &mut [StatePair],
) -> Result<Machine<'s, A::Guard>, Refusal<A::Entry>>
    requires sizes { (most_moves ≤ length spare.old) × (mark_bytes ≤ length marks.old) × (most_states ≤ length pairs.old) }
    ensures { ProductBuilt (A.model alg.now) (machine_of rule.now) (machine_of clause.now) way result }
{
    let graph = PairGraph { alg, rule, clause };
    let mut work = Worklist::new(marks, pairs);
    graph.reach(&mut work)?;
    let states = work.count();
    let reached = ReachedPairs { graph, work };
    let moves = reached.place_moves(spare)?;
    let endings = pair_endings(way, rule.endings, clause.endings, reached.work.found());
    Ok(Machine {
        states,
        endings,
        moves,
    })
}
