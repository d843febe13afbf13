ghost use Rattle.std.specs.Prelude.{◌≡◌};
ghost use Rattle.std.specs.Process.{exit_status};
ghost use Rattle.cli.specs.Ending.{status_of};

use crate::failure::Failure;
use std::fs::File;
use std::io;
use std::io::Write;
use std::process::ExitCode;

// Writes a file that is not there yet.
pub fn write_new(rt: &HostRuntime, name: &str, bytes: &[u8]) -> io::Result<()> {
    let mut file = File::create_new(rt, name)?;
    file.write_all(bytes)
}

// The status that a program ends with; a failure is told in a line first.
pub fn ended(rt: &HostRuntime, program: &str, outcome: Result<(), Failure>) -> ExitCode
    ensures { exit_status result ≡ status_of outcome }
{
    match outcome {
        Ok(()) => ExitCode::SUCCESS,
        Err(e) => {
            let _ = eprintln!(rt; "{program}: {e}");
            ExitCode::FAILURE
        }
    }
}
