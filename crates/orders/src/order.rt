// Orders: what one record asks for.
use automata::joins::JoinBy;
use automata::moves::Move;
use guards::activity::ActivityGuard;

// An order on a rule sheet; a record of ten bytes asks for one.
#[derive(Clone, Copy, PartialEq, Eq, Debug)]
pub enum Order {
    // Opens a clause.
    Open,
    // Adds a state to the open clause.
    Add,
    // Makes a state of the open clause an ending.
    Mark(usize),
    // Writes a move into the open clause.
    Write(Move<ActivityGuard>),
    // Checks the open clause.
    Check,
    // Joins the checked clause to the rule.
    Join(JoinBy),
    // Turns the rule: its endings and its other states change places.
    Turn,
    // Discards the clause, open or checked.
    Discard,
}
