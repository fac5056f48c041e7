// The limits of a sheet. Those on states follow from one number.

// The most states of a rule and of a checked clause.
pub const STATES: usize = 64;

// The most states of a clause as written: a check may add the sink.
pub const WRITTEN_STATES: usize = STATES - 1;

// The last round of separation, and the least size of a word buffer.
pub const WORD_ENTRIES: usize = STATES - 2;

// The least size of the marks: a byte for each pair of states.
pub const MARKS: usize = STATES * STATES;

// The most state pairs that a join reaches, and the least size of its pair list.
pub const PAIRS: usize = STATES;

// The most moves of a table, which is its least size too.
pub const MOVES: usize = 1024;

// The most guards of a rest list, which is the least size of a part list too.
pub const PARTS: usize = 256;
