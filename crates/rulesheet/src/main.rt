// Reads order records from standard input, applies them to a new sheet, and prints which are refused and the rule that stands.
#![tactic(auto)]

ghost use Rattle.std.specs.Prelude.{◌≤◌, length, IfOk};

use automata::limits::MOVES;
use automata::moves::Move;
use automata::refusals::{Refusal, Refused};
use guards::activity::{ACTIVITY, ActivityEntry, ActivityGuard};
use machines::clauses::Rule;
use orders::printout::Line;
use orders::records::{INPUT_BYTES, INPUT_RECORDS, RECORD_BYTES};
use orders::steps::{Reader, UNWRITTEN};
use std::io;
use std::io::Read;

// One byte more than an input may have, so that a longer one shows.
const BUFFER_BYTES: usize = INPUT_BYTES + 1;

// Fills the buffer from standard input as far as there is input; gives how many bytes came. The loop counts them, since no method
// fills a buffer as far as input goes, and a list that grows would need a heap.
fn read_input(rt: &HostRuntime, buffer: &mut [u8]) -> io::Result<usize>
    ensures { IfOk result (λ n. n ≤ length buffer.new) }
{
    let mut input = rt.stdin();
    let mut filled = 0;
    while filled < buffer.len() {
        let count = input.read(&mut buffer[filled..])?;
        if count == 0 {
            break;
        }
        filled += count;
    }
    Ok(filled)
}

// Steps over the records in order and gives the rule that stands at last. Notes for each record why it was refused, if it
// was; there is a place for each.
fn play(
    rule: Rule,
    clause_table: &mut [Move<ActivityGuard>],
    input: &[u8],
    refusals: &mut [Option<Refusal<ActivityEntry>>],
) -> Rule {
    let mut reader = Reader::new(rule);
    for (bytes, noted) in input.chunks(RECORD_BYTES).zip(refusals.iter_mut()) {
        reader = match reader.step(clause_table, bytes) {
            Ok(next) => next,
            Err(Refused { value, why }) => {
                *noted = Some(why);
                value
            }
        };
    }
    reader.end()
}

// Prints a line for each refusal.
fn print_refusals(rt: &HostRuntime, refusals: &[Option<Refusal<ActivityEntry>>]) -> io::Result<()> {
    for (place, refusal) in refusals.iter().enumerate() {
        if let Some(why) = refusal {
            rt.println(Line::refused(place, why))?;
        }
    }
    Ok(())
}

// Prints a line for each state.
fn print_states(rt: &HostRuntime, rule: &Rule) -> io::Result<()> {
    for state in 0..rule.counts().states {
        rt.println(Line::state(rule, state))?;
    }
    Ok(())
}

// Prints a line for each counted move.
fn print_moves(rt: &HostRuntime, rule: &Rule, table: &[Move<ActivityGuard>]) -> io::Result<()> {
    for line in table.iter().take(rule.counts().moves) {
        rt.println(Line::Counted(*line))?;
    }
    Ok(())
}

// Prints the refusals and then the rule: its counts, its states and its counted moves.
fn print_sheet(
    rt: &HostRuntime,
    refusals: &[Option<Refusal<ActivityEntry>>],
    rule: &Rule,
    table: &[Move<ActivityGuard>],
) -> io::Result<()> {
    print_refusals(rt, refusals)?;
    rt.println(Line::counts(rule))?;
    print_states(rt, rule)?;
    print_moves(rt, rule, table)
}

// Applies the records to a new rule, then prints the refusals and the rule that stands.
fn work(
    rt: &HostRuntime,
    rule: Rule,
    table: &[Move<ActivityGuard>],
    input: &[u8],
) -> io::Result<()> {
    let mut clause_table = [UNWRITTEN; MOVES];
    let mut refusals = [None; INPUT_RECORDS];
    let rule = play(rule, &mut clause_table, input, &mut refusals);
    let printed = print_sheet(rt, &refusals, &rule, table);
    rule.end(&ACTIVITY);
    printed
}

fn main(rt: HostRuntime) -> io::Result<()> {
    let mut buffer = [0; BUFFER_BYTES];
    let filled = read_input(&rt, &mut buffer)?;
    if filled > INPUT_BYTES {
        return println!(rt; "input too long");
    }
    let mut table = [UNWRITTEN; MOVES];
    match Rule::new_sheet(&ACTIVITY, &mut table) {
        Ok(rule) => work(&rt, rule, &table, &buffer[0..filled]),
        Err(_) => unreachable!(),
    }
}
