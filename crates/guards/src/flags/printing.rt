// Printed flags.
ghost use Rattle.std.specs.Prelude.{◌++◌, Some, codes, decimal};

use super::FlagRow;
use std::fmt;

// Care and value.
impl fmt::Display for FlagRow {
    ghost output = { λ row. Some (decimal row.care ++ (codes " " ++ decimal row.value)) };

    fn fmt<W: fmt::Write>(&self, f: &mut fmt::Formatter<W>) -> fmt::Result {
        write!(f, "{} {}", self.care, self.value)
    }
}
