// Why plain numbers make no guard and no entry.
ghost use Rattle.std.specs.Prelude.{Some, codes};
ghost use Rattle.guards.specs.Malformed.{phrase};

use std::error::Error;
use std::fmt;

// Which numbers are at fault; whoever reports refusals reports this one as number 11, carrying 1 for flags and 2 for minutes.
#[derive(Clone, Copy, PartialEq, Eq, Hash, Debug)]
pub enum Malformed {
    Flags,
    Minutes,
}

// Written here, since a derived text has no contract.
impl fmt::Display for Malformed {
    ghost output = { λ why. Some (phrase why) };

    fn fmt<W: fmt::Write>(&self, f: &mut fmt::Formatter<W>) -> fmt::Result {
        f.write_str(match self {
            Malformed::Flags => "not numbers of flags",
            Malformed::Minutes => "not numbers of minutes",
        })
    }
}

impl Error for Malformed {}
