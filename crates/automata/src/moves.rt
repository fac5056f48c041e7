// Moves: the lines that lead a machine from state to state.
ghost use Rattle.std.specs.Prelude.{◌++◌, codes, decimal};
ghost use Rattle.std.specs.Option.{option_map};

use std::fmt;

// A move, which leads from one state to another on every entry that its guard admits.
#[derive(Clone, Copy, PartialEq, Eq, Debug)]
pub struct Move<G> {
    pub from: usize,
    pub guard: G,
    pub to: usize,
}

// From, guard and to.
impl<G: fmt::Display> fmt::Display for Move<G> {
    ghost output = { λ line. option_map (λ guard. codes "move " ++ (decimal line.from ++ (codes " " ++ (guard ++ (codes " " ++ decimal line.to))))) (G.output line.guard) };

    fn fmt<W: fmt::Write>(&self, f: &mut fmt::Formatter<W>) -> fmt::Result {
        write!(f, "move {} {} {}", self.from, self.guard, self.to)
    }
}
