// Printed minutes.
ghost use Rattle.std.specs.Prelude.{◌++◌, Some, codes, decimal};

use super::MinuteRow;
use std::fmt;

// The first minute and the last.
impl fmt::Display for MinuteRow {
    ghost output = { λ row. Some (decimal row.first ++ (codes " " ++ decimal row.last)) };

    fn fmt<W: fmt::Write>(&self, f: &mut fmt::Formatter<W>) -> fmt::Result {
        write!(f, "{} {}", self.first, self.last)
    }
}
