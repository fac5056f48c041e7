// Words by which two states are told apart.
ghost use Rattle.std.specs.Prelude.{◌≡◌, ◌<◌, ◌≤◌, length};
ghost use Rattle.automata.specs.Limits.{most_rounds, most_word, mark_bytes};
ghost use Rattle.automata.specs.Refusals.{said};
ghost use Rattle.automata.specs.Telling.{word, word_of};
ghost use Rattle.tables.specs.Machines.{machine_of};
ghost use Rattle.reduction.specs.Placed.{Placed};
ghost use Rattle.reduction.specs.Rounds.{RoundMarks};
ghost use Rattle.reduction.specs.Words.{word_or, word_length, word_placed};

use crate::marks::PairMarks;
use crate::rounds::mark_rounds;
use crate::steps::Steps;
use automata::refusals::Refusal;
use guards::algebra::Algebra;
use tables::machines::Machine;

// Writes the word of two states that are separated in the round from place 0 of the buffer; gives its length. The steps are a
// struct; what is left is of this function alone.
fn write_word<'a, 'm, A: Algebra>(
    alg: &'a A,
    machine: &'a Machine<'a, A::Guard>,
    marks: &'a PairMarks<'m>,
    round: usize,
    first: usize,
    second: usize,
    buffer: &mut [A::Entry],
) -> usize
    requires told { RoundMarks (A.model alg.now) (machine_of machine.now) most_rounds marks.now }
    requires room { (round < most_rounds) × (round ≤ length buffer.old) }
    ensures { Placed (word (A.model alg.now) (machine_of machine.now) round first second) buffer.old buffer.new result }
{
    let (mut p, mut q) = (first, second);
    for (place, entry) in buffer[..round].iter_mut().enumerate() {
        let steps = Steps {
            alg,
            moves: machine.moves,
            marks,
            lower: p.min(q),
            higher: p.max(q),
            round: round - 1 - place,
        };
        let Some(step) = steps.first() else {
            return place;
        };
        *entry = step.sample;
        p = step.left;
        q = step.right;
    }
    round
}

// Writes the word that tells two states apart and gives its length; refused where no round separates them.
pub fn place_word<A: Algebra>(
    alg: &A,
    machine: &Machine<A::Guard>,
    first: usize,
    second: usize,
    word: &mut [A::Entry],
    marks: &mut [u8],
) -> Result<usize, Refusal<A::Entry>>
    requires below { (first < machine.now.states) × (second < machine.now.states) }
    requires sizes { (most_word ≤ length word.old) × (mark_bytes ≤ length marks.old) }
    ensures answer { said result ≡ word_length (word_or (word_of (A.model alg.now) (machine_of machine.now) first second)) }
    ensures buffer { word.new ≡ word_placed (word_or (word_of (A.model alg.now) (machine_of machine.now) first second)) word.old }
{
    let rounds = mark_rounds(alg, machine, marks);
    let round = rounds.round(first, second).ok_or(Refusal::NotSeparated)?;
    // The algebra and the machine are lent again, for as long as the marks are.
    Ok(write_word(&*alg, &*machine, &rounds, round, first, second, word))
}
