// Counts to heights and back by the sample's own programs, beside a float division: demo BOOK LISTING CALIBRATE UNDO
#![tactic(auto)]

mod compare;
mod work;

use cli::ended;
use std::process::ExitCode;
use work::demonstrate;

fn main(rt: HostRuntime) -> ExitCode {
    ended(&rt, "demo", demonstrate(&rt))
}
