// The worked cases: questions to the libraries with the answers that they must get.
ghost use Rattle.std.specs.Prelude.{◌≡◌, length};
ghost use Rattle.std.specs.List.{AllByRecursion};
ghost use Rattle.trials.specs.Cases.{Right, table};

// How many cases the table has; each is proved.
pub fn worked_cases() -> usize
    ensures count { result ≡ length table }
    ensures right { AllByRecursion Right table }
{
    8
}
