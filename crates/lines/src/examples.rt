// Worked examples of the definitions.
ghost use Rattle.std.specs.Prelude.{◌≡◌, length};
ghost use Rattle.lines.specs.Worked.{rows, AllHold};

// Every worked row has the window or the place that it should; the answer is how many rows there are.
pub fn worked_examples_follow() -> usize
    ensures rows { result ≡ length rows }
    ensures hold { AllHold rows }
{
    22
}
