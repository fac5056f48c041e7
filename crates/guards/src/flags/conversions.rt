// Flags that can hold no other numbers: entries and guards, made from plain numbers after a check, and back.
ghost use Rattle.std.specs.Prelude.{◌≡◌, true, false, ◌&&◌, MatchResult, ◌==◌, bit_and, nat_le};
ghost use Rattle.guards.specs.Flags.{is_flags, Makes, flag_row, pattern_row};
ghost use Rattle.guards.specs.declared.malformed.Malformed.TheVariants.{Flags};

use super::{FlagEntry, FlagGuard, FlagPattern, FlagRow, LAST_FLAGS, NO_FLAGS};
use crate::malformed::Malformed;
use crate::rows::RowGuard;

// Whether care has five bits, and the value no bit outside care.
pub(super) fn makes_pattern(care: u8, value: u8) -> bool
    ensures { result ≡ (nat_le care 31 && bit_and value care == value) }
{
    care <= LAST_FLAGS && value & care == value
}

impl TryFrom<u8> for FlagEntry {
    type Error = Malformed;

    ghost try_from_gives = { λ number r. MatchResult r (λ e. (is_flags number ≡ true) × (e.number ≡ number)) (λ why. (is_flags number ≡ false) × (why ≡ Flags)) };

    fn try_from(number: u8) -> Result<FlagEntry, Malformed> {
        if number <= LAST_FLAGS {
            Ok(FlagEntry { number })
        } else {
            Err(Malformed::Flags)
        }
    }
}

impl From<FlagEntry> for u8 {
    ghost from_gives = { λ e number. (number ≡ e.number) × (is_flags number ≡ true) };

    fn from(entry: FlagEntry) -> u8 {
        entry.number
    }
}

impl TryFrom<FlagRow> for FlagPattern {
    type Error = Malformed;

    ghost try_from_gives = { Makes };

    fn try_from(row: FlagRow) -> Result<FlagPattern, Malformed> {
        FlagPattern::read(row).ok_or(Malformed::Flags)
    }
}

impl From<FlagPattern> for FlagRow {
    ghost from_gives = { λ g row. row ≡ pattern_row g };

    fn from(pattern: FlagPattern) -> FlagRow {
        FlagRow {
            care: pattern.care,
            value: pattern.value,
        }
    }
}

// Written for each kind: one impl for the guards of any kind would be for a row that their trait names, which no impl may be.
impl From<FlagGuard> for FlagRow {
    ghost from_gives = { λ g row. row ≡ flag_row g };

    fn from(guard: FlagGuard) -> FlagRow {
        guard.map_or(NO_FLAGS, FlagRow::from)
    }
}
