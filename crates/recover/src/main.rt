// Runs shore programs, up to eight in one hall, each over a file of records: recover BOOK IMAGE JOB..
#![tactic(auto)]

mod institute;
mod preparing;
mod record;
mod report;
mod rotation;
mod work;

use cli::ended;
use std::process::ExitCode;
use work::recover;

fn main(rt: HostRuntime) -> ExitCode {
    ended(&rt, "recover", recover(&rt))
}
