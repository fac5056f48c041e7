// The printout: the lines that tell which records were refused and what the standing rule is.
ghost use Rattle.std.specs.Prelude.{◌≡◌, Some};
ghost use Rattle.tables.specs.Endings.{holds};
ghost use Rattle.automata.specs.Refusals.{told};
ghost use Rattle.orders.specs.Printout.{text};

use automata::moves::Move;
use automata::refusals::Refusal;
use guards::activity::{ActivityEntry, ActivityGuard};
use machines::clauses::Rule;
use std::fmt;

// One line of a printout.
#[derive(Clone, Copy)]
pub enum Line {
    // A record that was refused, and the refusal's number.
    Refused { place: usize, number: u8 },
    // How many states and how many counted moves the rule has.
    Counts { states: usize, moves: usize },
    // A state of the rule, and whether it is an ending.
    State { number: usize, is_ending: bool },
    // A counted move of the rule.
    Counted(Move<ActivityGuard>),
}

impl Line {
    // The line of a refused record.
    pub fn refused(place: usize, why: &Refusal<ActivityEntry>) -> Line
        ensures { result ≡ Line.Refused place (told why.now).number }
    {
        Line::Refused {
            place,
            number: why.number(),
        }
    }

    // The line of the rule's counts.
    pub fn counts(rule: &Rule) -> Line
        ensures { result ≡ Line.Counts rule.now.counts.states rule.now.counts.moves }
    {
        let counts = rule.counts();
        Line::Counts {
            states: counts.states,
            moves: counts.moves,
        }
    }

    // The line of a state of the rule.
    pub fn state(rule: &Rule, number: usize) -> Line
        ensures { result ≡ Line.State number (holds rule.now.endings number) }
    {
        Line::State {
            number,
            is_ending: rule.endings().contains(number),
        }
    }
}

impl fmt::Display for Line {
    ghost output = { λ line. Some (text line) };

    fn fmt<W: fmt::Write>(&self, f: &mut fmt::Formatter<W>) -> fmt::Result {
        match *self {
            Line::Refused { place, number } => write!(f, "record {place} refusal {number}"),
            Line::Counts { states, moves } => write!(f, "states {states} moves {moves}"),
            Line::State {
                number,
                is_ending: true,
            } => write!(f, "state {number} end"),
            Line::State {
                number,
                is_ending: false,
            } => write!(f, "state {number} no"),
            Line::Counted(line) => write!(f, "{line}"),
        }
    }
}
