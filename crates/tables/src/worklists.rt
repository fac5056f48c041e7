// Worklists: the nodes that a search has found, in order, each once, and how far it has visited them.
ghost use Rattle.std.specs.Prelude.{◌≡◌, ◌<◌, ◌≤◌, [], ◌∷◌, length, IfSome};
ghost use Rattle.guards.specs.Lists.{Member};
ghost use Rattle.automata.specs.Limits.{most_states, mark_bytes};
ghost use Rattle.automata.specs.Search.{place_of};
ghost use Rattle.tables.specs.Worklists.{Finds, Visits};

use crate::lists::{Full, SliceVec};
use crate::nodes::Node;
use automata::limits::{MARKS, STATES};
use std::marker::Model;

// Each mark is one more than the place of its node, or 0 where the node is not found: the caller lends a byte a node, so that a
// worklist allocates nothing. The nodes grow while they are visited, so that `visited` counts them.
#[derive(Drop)]
pub struct Worklist<'a, N: Node> {
    marks: &'a mut [u8],
    found: SliceVec<'a, N>,
    visited: usize,
}

impl<'a, N: Node> Model for Worklist<'a, N> {
    ghost use Rattle.tables.specs.Worklists.{Work, IsWorklist};

    ghost Value = { Work N };

    ghost view = { λ w. record { found = w.found.items; visited = w.visited } };

    ghost invariant = { λ w. IsWorklist N.same N.place N.inside w.marks.now w.found w.visited };
}

impl<'a, N: Node> Worklist<'a, N> {
    // A worklist without nodes; the buffers have their least sizes.
    pub fn new(marks: &'a mut [u8], buffer: &'a mut [N]) -> Worklist<'a, N>
        requires bytes { mark_bytes ≤ length marks.old }
        requires room { most_states ≤ length buffer.old }
        ensures { result ≡ record { found = []; visited = 0 } }
    {
        Worklist::with_places(marks, buffer, MARKS)
    }

    // The same, of nodes whose marks all stand below that place: no other mark is cleared, however many are lent.
    pub fn with_places(marks: &'a mut [u8], buffer: &'a mut [N], places: usize) -> Worklist<'a, N>
        requires bytes { mark_bytes ≤ length marks.old }
        requires room { most_states ≤ length buffer.old }
        requires few { places ≤ mark_bytes }
        requires below { (x : N) → N.inside x → N.place x < places }
        ensures { result ≡ record { found = []; visited = 0 } }
    {
        marks[..places].fill(0);
        Worklist {
            marks,
            found: SliceVec::with_room(buffer, STATES),
            visited: 0,
        }
    }

    // Puts the node behind the others, unless it is found already.
    pub fn add(&mut self, node: N) -> Result<(), Full>
        requires { N.inside node }
        ensures { Finds N.same (node ∷ []) self.old self.new result }
    {
        let place = node.place();
        if self.marks[place] == 0 {
            self.found.push(node)?;
            self.marks[place] = self.found.len() as u8;
        }
        Ok(())
    }

    // Visits the next found node, if one is left.
    pub fn visit(&mut self) -> Option<N>
        ensures visits { Visits self.old self.new result }
        ensures inside { IfSome result (λ x. N.inside x) }
        ensures few { length self.old.found ≤ most_states }
    {
        let node = *self.found.as_slice().get(self.visited)?;
        self.visited += 1;
        Some(node)
    }

    // How many nodes are found.
    pub fn count(&self) -> usize
        ensures is { result ≡ length self.now.found }
        ensures few { result ≤ most_states }
    {
        self.found.len()
    }

    // The found nodes, in order.
    pub fn found(&self) -> &[N]
        ensures { result.now ≡ self.now.found }
    {
        self.found.as_slice()
    }

    // The place of a found node.
    pub fn place_of(&self, node: N) -> usize
        requires inside { N.inside node }
        requires found { Member node self.now.found }
        ensures { result ≡ place_of N.same node self.now.found }
    {
        usize::from(self.marks[node.place()]) - 1
    }
}
