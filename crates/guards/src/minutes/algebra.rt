// What the algebra of minutes answers for two ranges.
ghost use Rattle.std.specs.Prelude.{◌≡◌};
ghost use Rattle.guards.specs.Minutes.{minutes_model, is_range, no_minutes, range_row, below, above};
ghost use Rattle.std.specs.Option.{option_to_list};
ghost use Rattle.guards.specs.MinuteLaws.{minute_laws, minutes_read_as_empty};

use super::{LAST_MINUTE, MinuteRange, MinuteRow, NO_MINUTES};
use crate::rows::RowGuard;

impl MinuteRange {
    // The minutes of this range before the other's first.
    fn below(self, other: MinuteRange) -> Option<MinuteRow>
        ensures { option_to_list result ≡ below (range_row self) (range_row other) }
    {
        if self.first < other.first {
            Some(MinuteRow {
                first: self.first,
                last: self.last.min(other.first - 1),
            })
        } else {
            None
        }
    }

    // The minutes of this range after the other's last.
    fn above(self, other: MinuteRange) -> Option<MinuteRow>
        ensures { option_to_list result ≡ above (range_row self) (range_row other) }
    {
        if other.last < self.last {
            Some(MinuteRow {
                first: self.first.max(other.last + 1),
                last: self.last,
            })
        } else {
            None
        }
    }
}

impl RowGuard for MinuteRange {
    type Entry = u16;

    type Row = MinuteRow;

    const EMPTY: MinuteRow = NO_MINUTES;

    ghost EMPTY = { no_minutes };

    ghost model = { minutes_model };

    ghost makes = { is_range };

    ghost written = { range_row };

    ghost empty = { minutes_read_as_empty };

    ghost lawful = { minute_laws };

    fn whole() -> MinuteRow {
        MinuteRow {
            first: 0,
            last: LAST_MINUTE,
        }
    }

    fn read(row: MinuteRow) -> Option<MinuteRange> {
        MinuteRange::try_from(row).ok()
    }

    fn admits(self, minute: u16) -> bool {
        self.first <= minute && minute <= self.last
    }

    fn meet(self, other: MinuteRange) -> Option<MinuteRow> {
        let first = self.first.max(other.first);
        let last = self.last.min(other.last);
        (first <= last).then_some(MinuteRow { first, last })
    }

    fn sample(self) -> u16 {
        self.first
    }

    fn part(self, other: MinuteRange, number: usize) -> Option<MinuteRow> {
        match (self.below(other), number) {
            (Some(low), 0) => Some(low),
            (None, 0) | (Some(_), 1) => self.above(other),
            _ => None,
        }
    }
}
