// How a sample program ends.
ghost use Rattle.std.specs.Prelude.{◌≡◌, IfOk, MatchResult};
ghost use Rattle.std.specs.Process.{exit_status};

use std::process::ExitCode;

// The exit status of a program that came to this: 0, or 1 after a fault, which is written to standard error after the program's name.
pub fn status(
    rt: &HostRuntime,
    program: &str,
    outcome: anyhow::Result<()>,
) -> anyhow::Result<ExitCode>
    ensures { IfOk result (λ code. MatchResult outcome (λ _. exit_status code ≡ 0) (λ _. exit_status code ≡ 1)) }
{
    let Err(fault) = outcome else {
        return Ok(ExitCode::SUCCESS);
    };
    eprintln!(rt; "{program}: {fault}")?;
    Ok(ExitCode::FAILURE)
}
