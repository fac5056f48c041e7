// Printed pairs.
ghost use Rattle.std.specs.Prelude.{Some, codes};
ghost use Rattle.std.specs.Fmt.{◌++?◌};

use super::Both;
use std::fmt;

// The first and the second.
impl<X: fmt::Display, Y: fmt::Display> fmt::Display for Both<X, Y> {
    ghost output = { λ p. X.output p.first ++? Some (codes " ") ++? Y.output p.second };

    fn fmt<W: fmt::Write>(&self, f: &mut fmt::Formatter<W>) -> fmt::Result {
        write!(f, "{} {}", self.first, self.second)
    }
}
