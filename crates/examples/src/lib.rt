// The examples of R91, and the refusal numbers of R71, each as one table with one claim over all its rows: specs/Examples.antt. There is nothing to
// run here.
#![tactic(auto)]

ghost use Rattle.std.specs.Prelude.{◌≡◌};
ghost use Rattle.examples.specs.Examples.{row_count, refusal_count};

// The rows of the examples.
pub fn rows() -> usize
    ensures { result ≡ row_count }
{
    19
}

// The rows of the refusals.
pub fn refusals() -> usize
    ensures { result ≡ refusal_count }
{
    21
}
