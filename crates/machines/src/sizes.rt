// The test of sizes that a call begins with.
ghost use Rattle.std.specs.Prelude.{◌≡◌, true, false, MatchResult};
ghost use Rattle.automata.specs.declared.refusals.Refusal.TheVariants.{TooShort};
ghost use Rattle.machines.specs.Sizes.{is_short};

use automata::refusals::Refusal;

// Whether a size is below the least, which stands beside it.
fn is_short(sizes: &[(usize, usize)]) -> bool
    ensures { result ≡ is_short sizes.now }
{
    sizes.iter().any(|&(size, least)| size < least)
}

// Refuses where a size is below the least beside it.
pub(crate) fn test_sizes<E>(sizes: &[(usize, usize)]) -> Result<(), Refusal<E>>
    ensures { MatchResult result (λ _. is_short sizes.now ≡ false) (λ why. (is_short sizes.now ≡ true) × (why ≡ TooShort)) }
{
    if is_short(sizes) {
        return Err(Refusal::TooShort);
    }
    Ok(())
}
