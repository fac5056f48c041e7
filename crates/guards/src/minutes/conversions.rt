// Minutes that can hold no other numbers: entries and guards, made from plain numbers after a check, and back.
ghost use Rattle.std.specs.Prelude.{◌≡◌, true, false, MatchResult};
ghost use Rattle.guards.specs.Minutes.{is_minute, Makes, minute_row, range_row};
ghost use Rattle.guards.specs.declared.malformed.Malformed.TheVariants.{Minutes};

use super::{LAST_MINUTE, MinuteEntry, MinuteGuard, MinuteRange, MinuteRow, NO_MINUTES};
use crate::malformed::Malformed;

impl TryFrom<u16> for MinuteEntry {
    type Error = Malformed;

    ghost try_from_gives = { λ number r. MatchResult r (λ e. (is_minute number ≡ true) × (e.number ≡ number)) (λ why. (is_minute number ≡ false) × (why ≡ Minutes)) };

    fn try_from(number: u16) -> Result<MinuteEntry, Malformed> {
        if number <= LAST_MINUTE {
            Ok(MinuteEntry { number })
        } else {
            Err(Malformed::Minutes)
        }
    }
}

impl From<MinuteEntry> for u16 {
    ghost from_gives = { λ e number. (number ≡ e.number) × (is_minute number ≡ true) };

    fn from(entry: MinuteEntry) -> u16 {
        entry.number
    }
}

impl TryFrom<MinuteRow> for MinuteRange {
    type Error = Malformed;

    ghost try_from_gives = { Makes };

    fn try_from(row: MinuteRow) -> Result<MinuteRange, Malformed> {
        let MinuteRow { first, last } = row;
        if first <= last && last <= LAST_MINUTE {
            Ok(MinuteRange { first, last })
        } else {
            Err(Malformed::Minutes)
        }
    }
}

impl From<MinuteRange> for MinuteRow {
    ghost from_gives = { λ g row. row ≡ range_row g };

    fn from(range: MinuteRange) -> MinuteRow {
        MinuteRow {
            first: range.first,
            last: range.last,
        }
    }
}

// Written for each kind, as with flags.
impl From<MinuteGuard> for MinuteRow {
    ghost from_gives = { λ g row. row ≡ minute_row g };

    fn from(guard: MinuteGuard) -> MinuteRow {
        guard.map_or(NO_MINUTES, MinuteRow::from)
    }
}
