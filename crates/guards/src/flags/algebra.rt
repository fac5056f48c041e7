// What the algebra of flags answers for two patterns.
ghost use Rattle.std.specs.Prelude.{◌≡◌};
ghost use Rattle.guards.specs.Bits.{has};
ghost use Rattle.guards.specs.Flags.{flags_model, flags_overlap, is_pattern, no_flags, pattern_row, joined, fresh, fixed, split, weights};
ghost use Rattle.std.specs.List.{All, slice_get};
ghost use Rattle.guards.specs.FlagLaws.{flag_laws, flags_read_as_empty};

use super::conversions::makes_pattern;
use super::{FlagPattern, FlagRow, LAST_FLAGS, NO_FLAGS, WEIGHTS};
use crate::algebra::only;
use crate::rows::RowGuard;

// Whether the number has the bit of that weight.
fn has_bit(number: u8, weight: u8) -> bool
    ensures { result ≡ has number weight }
{
    number & weight != 0
}

// The row, with that bit cared for too, and on or off.
fn fix(row: FlagRow, weight: u8, on: bool) -> FlagRow
    ensures { result ≡ fixed row weight on }
{
    FlagRow {
        care: row.care | weight,
        value: if on { row.value | weight } else { row.value },
    }
}

impl FlagPattern {
    // Whether the two values are the same on the shared care bits.
    fn is_compatible(self, other: FlagPattern) -> bool
        ensures { result ≡ flags_overlap (pattern_row self) (pattern_row other) }
    {
        let shared = self.care & other.care;
        self.value & shared == other.value & shared
    }

    // The row with the cares and the values of both.
    fn join(self, other: FlagPattern) -> FlagRow
        ensures { result ≡ joined (pattern_row self) (pattern_row other) }
    {
        FlagRow {
            care: self.care | other.care,
            value: self.value | other.value,
        }
    }

    // The bits that the other pattern cares for, and this one does not.
    #[tactic(auto, using(crate::proofs::FlagParts::bits_apart))]
    fn fresh_bits(self, other: FlagPattern) -> u8
        ensures { All (λ w. has result w ≡ fresh (pattern_row self) (pattern_row other) w) weights }
    {
        other.care & !self.care
    }

    // The part of that number of this pattern without the other, where the two meet: a part for each fresh bit. A loop over the five
    // weights, which a check runs often: a chain of iterators over the fresh bits costs more.
    fn split(self, other: FlagPattern, number: usize) -> Option<FlagRow>
        ensures { result ≡ slice_get (split (pattern_row self) (pattern_row other) (pattern_row self) weights) number }
    {
        let fresh = self.fresh_bits(other);
        let mut grown = FlagRow::from(self);
        let mut left = number;
        for weight in WEIGHTS {
            if has_bit(fresh, weight) {
                let on = has_bit(other.value, weight);
                if left == 0 {
                    return Some(fix(grown, weight, !on));
                }
                left -= 1;
                grown = fix(grown, weight, on);
            }
        }
        None
    }
}

impl RowGuard for FlagPattern {
    type Entry = u8;

    type Row = FlagRow;

    const EMPTY: FlagRow = NO_FLAGS;

    ghost EMPTY = { no_flags };

    ghost model = { flags_model };

    ghost makes = { is_pattern };

    ghost written = { pattern_row };

    ghost empty = { flags_read_as_empty };

    ghost lawful = { flag_laws };

    fn whole() -> FlagRow {
        FlagRow { care: 0, value: 0 }
    }

    #[tactic(auto, using(crate::specs::FlagTests::pattern_test))]
    fn read(row: FlagRow) -> Option<FlagPattern> {
        let FlagRow { care, value } = row;
        if !makes_pattern(care, value) {
            return None;
        }
        Some(FlagPattern { care, value })
    }

    // The entry agrees with the value on every care bit.
    fn admits(self, flags: u8) -> bool {
        flags <= LAST_FLAGS && flags & self.care == self.value
    }

    fn meet(self, other: FlagPattern) -> Option<FlagRow> {
        self.is_compatible(other).then(|| self.join(other))
    }

    #[tactic(auto, using(crate::specs::FlagTests::pattern_made))]
    fn sample(self) -> u8 {
        self.value
    }

    #[tactic(auto, using(crate::specs::FlagTests::pattern_made))]
    fn part(self, other: FlagPattern, number: usize) -> Option<FlagRow> {
        if self.is_compatible(other) {
            self.split(other, number)
        } else {
            only(FlagRow::from(self), number)
        }
    }
}
