// How the programs end.
#![tactic(auto)]

ghost use Rattle.std.specs.Prelude.{◌≡◌, OnErr, OnOk};
ghost use Rattle.std.specs.Process.{exit_status};

use std::fmt::Display;
use std::io::Eprint;
use std::process::ExitCode;

// The status that a program ends with: 0, or 1 where it failed, once its error stands on standard error after the
// program's name.
pub fn exit_code<R: Eprint, E: Display + Drop>(
    rt: &R,
    name: &str,
    outcome: Result<(), E>,
) -> ExitCode
    ensures succeeded { OnOk outcome (exit_status result ≡ 0) }
    ensures failed { OnErr outcome (exit_status result ≡ 1) }
{
    match outcome {
        Ok(()) => ExitCode::SUCCESS,
        Err(error) => {
            let _ = eprintln!(rt; "{name}: {error}");
            ExitCode::FAILURE
        }
    }
}
