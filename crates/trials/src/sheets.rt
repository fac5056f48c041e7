// A sheet after records, in plain values.
use automata::limits::MOVES;
use automata::moves::Move;
use automata::refusals::{Refusal, Refused};
use guards::activity::{ACTIVITY, ActivityEntry, ActivityGuard};
use machines::clauses::Rule;
use orders::hand::Hand;
use orders::records::RECORD_BYTES;
use orders::steps::{Reader, UNWRITTEN};
use std::process::Abort;
use std::test::Fail;
use tables::counts::Counts;
use tables::endings::Endings;

pub(crate) type Record = [u8; RECORD_BYTES];

pub(crate) type Table = [Move<ActivityGuard>; MOVES];

// A value's counts and endings.
#[derive(Clone, Copy, PartialEq)]
pub(crate) struct View {
    pub(crate) counts: Counts,
    pub(crate) endings: Endings,
}

// A sheet as records left it, in plain values, and why the last record was refused.
#[derive(Clone, Copy)]
pub(crate) struct Seen {
    pub(crate) hand: Option<View>,
    pub(crate) rule: View,
    pub(crate) table: Table,
    pub(crate) refusal: Option<Refusal<ActivityEntry>>,
}

// What is in hand, which is ended.
fn seen_hand(hand: Hand) -> Option<View> {
    let view = match &hand {
        Hand::Nothing => None,
        Hand::Open(clause) => Some(View {
            counts: clause.counts(),
            endings: clause.endings(),
        }),
        Hand::Checked(clause) => Some(View {
            counts: clause.counts(),
            endings: clause.endings(),
        }),
    };
    hand.discard();
    view
}

// The rule, which is ended.
fn seen_rule(rule: Rule) -> View {
    let view = View {
        counts: rule.counts(),
        endings: rule.endings(),
    };
    rule.end(&ACTIVITY);
    view
}

// A new sheet after the records in their order, with nothing in hand at first; the refusal is that of the last.
pub(crate) fn play(records: &[Record]) -> Seen {
    let mut rule_table = [UNWRITTEN; MOVES];
    let mut table = [UNWRITTEN; MOVES];
    let Ok(rule) = Rule::new_sheet(&ACTIVITY, &mut rule_table) else {
        unreachable!()
    };
    let mut reader = Reader::new(rule);
    let mut refusal = None;
    for bytes in records {
        reader = match reader.step(&mut table, bytes) {
            Ok(next) => {
                refusal = None;
                next
            }
            Err(Refused { value, why }) => {
                refusal = Some(why);
                value
            }
        };
    }
    let Reader { hand, rule } = reader;
    Seen {
        hand: seen_hand(hand),
        rule: seen_rule(rule),
        table,
        refusal,
    }
}

// A record with the letter and zeros: E marks state 0, M writes a move from 0 to 0.
pub(crate) fn plain(letter: u8) -> Record {
    [letter, 0, 0, 0, 0, 0, 0, 0, 0, 0]
}

// The last record was refused for that, and left the sheet as the ones before it had.
pub(crate) fn refused(
    rt: &impl Abort,
    before: &Seen,
    after: &Seen,
    why: Refusal<ActivityEntry>,
) -> Result<(), Fail> {
    assert_eq!(rt; after.refusal, Some(why));
    assert!(rt; after.hand == before.hand);
    assert!(rt; after.rule == before.rule);
    assert!(rt; after.table == before.table);
    Ok(())
}

// The states and moves of what is in hand, and whether state 1 is an ending of it.
pub(crate) fn in_hand(seen: &Seen) -> Option<(usize, usize, bool)> {
    seen.hand.map(|view| (
        view.counts.states,
        view.counts.moves,
        view.endings.contains(1),
    ))
}
