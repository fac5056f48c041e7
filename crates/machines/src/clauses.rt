// The moved values of a sheet: an open clause, a checked clause and a rule. Their moves lie in tables beside them, which the caller
// keeps: a value that borrowed its table could not be handed from call to call with it.
// They are three types, each with its own limit, so that a call takes only what may be handed to it.
ghost use Rattle.automata.specs.Limits.{most_states, most_written};
ghost use Rattle.tables.specs.Values.{Within};

use tables::counts::Counts;
use tables::endings::Endings;

mod checked;
mod checking;
mod joining;
mod open;
mod rules;
mod running;
mod states;
mod telling;

// A clause that is being written. It is spent by checking or discarding it.
pub struct OpenClause {
    counts: Counts,
    endings: Endings,
    ghost within: { Within most_written counts endings },
}

// A clause that was checked. It is spent by joining or discarding it.
pub struct CheckedClause {
    counts: Counts,
    endings: Endings,
    ghost within: { Within most_states counts endings },
}

// The standing rule of a sheet. It is spent by joining a clause to it, by turning it over, or by ending it.
pub struct Rule {
    counts: Counts,
    endings: Endings,
    ghost within: { Within most_states counts endings },
}

// What a refused join hands back.
pub struct Unjoined {
    pub rule: Rule,
    pub clause: CheckedClause,
}
