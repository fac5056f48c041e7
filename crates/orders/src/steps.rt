// The step of one record: its order is applied to the hand, the rule and the clause's table, or it is refused.
ghost use Rattle.std.specs.Prelude.{◌≡◌, Ok};
ghost use Rattle.machines.specs.Calls.{Outcome, Opened, Marked, Turned, Written, adding_refused, marking_refused};
ghost use Rattle.orders.specs.Records.{decoded};
ghost use Rattle.orders.specs.Steps.{AddedTo, HoldsOpen, OpenTo, needs_clause, needs_nothing, needs_open, out_of_place, with_rule, writing_why, Steps};
ghost use Rattle.orders.specs.declared.hand.Hand.TheVariants.{Nothing};

use crate::hand::Hand;
use crate::order::Order;
use crate::records;
use automata::moves::Move;
use automata::refusals::{Refusal, Refused};
use guards::activity::{ACTIVITY, ActivityEntry, ActivityGuard};
use guards::flags::NO_FLAGS;
use guards::minutes::NO_MINUTES;
use guards::pair::Both;
use machines::clauses::{OpenClause, Rule};

// What a place of a table holds before a move is written there.
pub const UNWRITTEN: Move<ActivityGuard> = Move {
    from: 0,
    guard: Both {
        first: NO_FLAGS,
        second: NO_MINUTES,
    },
    to: 0,
};

// What an order makes of the hand, or the hand as it was and why.
type Handled = Result<Hand, Refused<Hand, ActivityEntry>>;

// The reader of records: what it holds in hand, and the standing rule. It is moved through each step.
pub struct Reader {
    pub hand: Hand,
    pub rule: Rule,
}

// A hand that does not fit the order.
fn misplaced(hand: Hand) -> Handled
    ensures { Outcome out_of_place (λ _. ⊥) hand (Unit {0}) result }
{
    Err(Refused {
        value: hand,
        why: Refusal::OutOfPlace,
    })
}

// A refused call on an open clause, with the clause back in hand.
fn back_in_hand(refused: Refused<OpenClause, ActivityEntry>) -> Refused<Hand, ActivityEntry>
    ensures why { result.why ≡ refused.why }
    ensures hand { result.value ≡ Hand.Open refused.value }
{
    refused.map(|clause| Hand::Open(clause))
}

// O: opens a clause if nothing is in hand.
fn open(hand: Hand) -> Handled
    ensures { Outcome (needs_nothing hand) (HoldsOpen Opened) hand (Unit {0}) result }
{
    match hand {
        Hand::Nothing => Ok(Hand::Open(OpenClause::open(&ACTIVITY))),
        held => misplaced(held),
    }
}

// S: adds a state to the open clause.
fn add(hand: Hand) -> Handled
    ensures { Outcome (needs_open adding_refused hand) (OpenTo AddedTo hand) hand (Unit {0}) result }
{
    match hand {
        Hand::Open(clause) => {
            let (clause, _) = clause.add(&ACTIVITY).map_err(back_in_hand)?;
            Ok(Hand::Open(clause))
        }
        other => misplaced(other),
    }
}

// E: makes a state of the open clause an ending.
fn mark(hand: Hand, state: usize) -> Handled
    ensures { Outcome (needs_open (λ c. marking_refused c state) hand) (OpenTo (λ c. Marked c state) hand) hand (Unit {0}) result }
{
    match hand {
        Hand::Open(clause) => Ok(Hand::Open(clause.mark(&ACTIVITY, state).map_err(back_in_hand)?)),
        other => misplaced(other),
    }
}

// M: writes a move into the open clause. Its numbers are tested before the clause is asked.
fn write(hand: Hand, clause_table: &mut [Move<ActivityGuard>], line: Move<ActivityGuard>) -> Handled
    ensures { Outcome (needs_open (writing_why line clause_table.old) hand) (OpenTo (λ c d. Written c clause_table.old line d clause_table.new) hand) hand (clause_table.new ≡ clause_table.old) result }
{
    match hand {
        Hand::Open(clause) => match records::checked(Order::Write(line)) {
            Ok(_) => Ok(Hand::Open(
                clause
                    .write(&ACTIVITY, clause_table, line)
                    .map_err(back_in_hand)?,
            )),
            Err(why) => Err(back_in_hand(Refused { value: clause, why })),
        },
        other => misplaced(other),
    }
}

// K: discards the clause in hand.
fn discard(hand: Hand) -> Handled
    ensures { Outcome (needs_clause hand) (λ h. h ≡ Nothing) hand (Unit {0}) result }
{
    match hand {
        Hand::Nothing => misplaced(Hand::Nothing),
        other => {
            other.discard();
            Ok(Hand::Nothing)
        }
    }
}

// The reader with what an order made of the hand. `map` of a refused call is no help: no closure may hold a rule.
fn with_rule(handled: Handled, rule: Rule) -> Result<Reader, Refused<Reader, ActivityEntry>>
    ensures { result ≡ with_rule handled rule }
{
    match handled {
        Ok(hand) => Ok(Reader { hand, rule }),
        Err(Refused { value, why }) => Err(Refused {
            value: Reader { hand: value, rule },
            why,
        }),
    }
}

impl Reader {
    // A reader with nothing in hand.
    pub fn new(rule: Rule) -> Reader
        ensures { result ≡ record { hand = Hand.Nothing; rule = rule } }
    {
        Reader {
            hand: Hand::Nothing,
            rule,
        }
    }

    // The step of an order.
    fn apply(
        self,
        clause_table: &mut [Move<ActivityGuard>],
        order: Order,
    ) -> Result<Reader, Refused<Reader, ActivityEntry>>
        ensures { Steps (Ok order) self clause_table.old clause_table.new result }
    {
        let Reader { hand, rule } = self;
        match order {
            Order::Open => with_rule(open(hand), rule),
            Order::Add => with_rule(add(hand), rule),
            Order::Mark(state) => with_rule(mark(hand, state), rule),
            Order::Write(line) => with_rule(write(hand, clause_table, line), rule),
            // Checking and joining are not built yet, so they fit no hand.
            Order::Check | Order::Join(_) => with_rule(misplaced(hand), rule),
            Order::Turn => Ok(Reader {
                hand,
                rule: rule.turn(&ACTIVITY),
            }),
            Order::Discard => with_rule(discard(hand), rule),
        }
    }

    // The step of a record, which asks for an order or is out of place. A refusal hands the reader back as it was.
    pub fn step(
        self,
        clause_table: &mut [Move<ActivityGuard>],
        bytes: &[u8],
    ) -> Result<Reader, Refused<Reader, ActivityEntry>>
        ensures { Steps (decoded bytes.now) self clause_table.old clause_table.new result }
    {
        match Order::try_from(bytes) {
            Ok(order) => self.apply(clause_table, order),
            Err(why) => Err(Refused { value: self, why }),
        }
    }

    // Ends what is in hand; the rule that stands is left.
    pub fn end(self) -> Rule
        ensures { result ≡ self.rule }
    {
        let Reader { hand, rule } = self;
        hand.discard();
        rule
    }
}
