// The test that a call's states are below the count.
ghost use Rattle.std.specs.Prelude.{◌≡◌, None, Some, MatchResult};
ghost use Rattle.automata.specs.Refusals.{told};
ghost use Rattle.machines.specs.TellCall.{no_state};

use automata::refusals::Refusal;

// Refuses two states of which one is not below the count, the first before the second.
pub(super) fn test_states<E>(states: usize, first: usize, second: usize) -> Result<(), Refusal<E>>
    ensures { MatchResult result (λ _. no_state {E = E} states first second ≡ None) (λ why. no_state states first second ≡ Some (told why)) }
{
    if first >= states {
        return Err(Refusal::NoSuchState(first));
    }
    if second >= states {
        return Err(Refusal::NoSuchState(second));
    }
    Ok(())
}
