// The worked cases: questions to the algebras with the answers that they must get.
ghost use Rattle.std.specs.Prelude.{◌≡◌, length};
ghost use Rattle.guards.specs.Cases.{Right, table};
ghost use Rattle.std.specs.List.{AllByRecursion};

// How many cases the table has; each is proved.
#[tactic(auto, unfolding(crate::specs::Flags::split))]
pub fn worked_cases() -> usize
    ensures count { result ≡ length table }
    ensures right { AllByRecursion Right table }
{
    3
}
