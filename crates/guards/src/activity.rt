// Activity entries: flags beside minutes, and the word that a card stores for one.
ghost use Rattle.std.specs.Prelude.{◌≡◌, true, IfOk};
ghost use Rattle.guards.specs.Activity.{entry_of, activity_model};

use crate::flags::{FLAGS, FlagEntry, FlagRow, Flags};
use crate::malformed::Malformed;
use crate::minutes::{MINUTES, MinuteEntry, MinuteRow, Minutes};
use crate::pair::{Both, Pair};

pub type ActivityEntry = Both<u8, u16>;

pub type ActivityGuard = Both<FlagRow, MinuteRow>;

pub type ActivityAlgebra = Pair<Flags, Minutes>;

pub const ACTIVITY: ActivityAlgebra = Pair {
    first: FLAGS,
    second: MINUTES,
};

// How many numbers the low eleven bits of an activity change word can hold.
const MINUTE_NUMBERS: u16 = 2048;

// An activity change word: the flags in its top five bits, the minute in its low eleven.
#[derive(Clone, Copy, PartialEq, Eq, Debug)]
pub struct ChangeWord(pub u16);

impl TryFrom<ChangeWord> for ActivityEntry {
    type Error = Malformed;

    ghost try_from_gives = { λ word r. (r ≡ entry_of word.0) × IfOk r (λ e. activity_model.domain e ≡ true) };

    fn try_from(word: ChangeWord) -> Result<ActivityEntry, Malformed> {
        let flags = FlagEntry::try_from((word.0 / MINUTE_NUMBERS) as u8)?;
        let minute = MinuteEntry::try_from(word.0 % MINUTE_NUMBERS)?;
        Ok(Both {
            first: flags.into(),
            second: minute.into(),
        })
    }
}
