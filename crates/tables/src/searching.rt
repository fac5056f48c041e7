// Breadth-first search: one for states, and for pairs of states.
ghost use Rattle.std.specs.Prelude.{◌≡◌, [], List};
ghost use Rattle.tables.specs.Worklists.{Finds, Searches};

use crate::lists::Full;
use crate::nodes::Node;
use crate::worklists::Worklist;

// A graph, by what finds the successors of a node.
pub trait Graph {
    type Node: Node;

    ghost successors: { Self → Self.Node → List Self.Node };

    // Puts the successors of the node into the worklist, in order.
    fn find_successors(&self, node: Self::Node, work: &mut Worklist<Self::Node>) -> Result<(), Full>
        requires { Self.Node.inside node }
        ensures { Finds Self.Node.same (successors self.now node) work.old work.new result };
}

// Finds the nodes that are reached from the start, breadth first, in a worklist that is new.
pub fn search<G: Graph>(graph: &G, start: G::Node, work: &mut Worklist<G::Node>) -> Result<(), Full>
    requires inside { G.Node.inside start }
    requires fresh { work.old ≡ record { found = []; visited = 0 } }
    ensures { Searches G.Node.same (G.successors graph.now) start work.new result }
{
    work.add(start)?;
    while let Some(node) = work.visit() {
        graph.find_successors(node, work)?;
    }
    Ok(())
}
