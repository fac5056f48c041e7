// Counts: how large a machine is.

// How many states a machine has, and how many moves of its table count.
#[derive(Clone, Copy, PartialEq, Eq, Debug)]
pub struct Counts {
    pub states: usize,
    pub moves: usize,
}
