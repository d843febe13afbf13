// Makes the calls of a script in one hall, one line of answer each: calls BOOK IMAGE [TABLE] < SCRIPT
#![tactic(auto)]

mod answer;
mod call;
mod script;
mod table;
mod work;

use cli::ended;
use std::process::ExitCode;
use work::make_calls;

fn main(rt: HostRuntime) -> ExitCode {
    ended(&rt, "calls", make_calls(&rt))
}
