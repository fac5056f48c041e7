// The three ways of joining a clause to the rule.

// How a clause is joined to the rule: which days the rule accepts afterwards.
#[derive(Clone, Copy, PartialEq, Eq, Debug)]
pub enum JoinBy {
    // The days that both accept.
    Both,
    // The days that the rule or the clause accepts.
    Either,
    // The days that the rule accepts and the clause does not.
    Except,
}
