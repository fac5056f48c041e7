// The hand: what the reader of orders holds from one record to the next.
use guards::activity::ACTIVITY;
use machines::clauses::{CheckedClause, OpenClause};

// What the reader holds. It is moved through each step and ended at last: a clause in it cannot be forgotten.
pub enum Hand {
    // No clause: one may be opened.
    Nothing,
    // A clause that is being written.
    Open(OpenClause),
    // A clause that was checked and waits to be joined.
    Checked(CheckedClause),
}

impl Hand {
    // Ends whatever is in hand.
    pub fn discard(self) {
        match self {
            Hand::Nothing => {}
            Hand::Open(clause) => clause.discard(&ACTIVITY),
            Hand::Checked(clause) => clause.discard(&ACTIVITY),
        }
    }
}
