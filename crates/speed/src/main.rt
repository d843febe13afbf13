// Runs a program over each kind of store in one go, and tells what each costs: speed BOOK IMAGE JOB RUNS
#![tactic(auto)]

mod measure;
mod runs;
mod work;

use cli::ended;
use std::process::ExitCode;
use work::measure_all;

fn main(rt: HostRuntime) -> ExitCode {
    ended(&rt, "speed", measure_all(&rt))
}
