// Answers a table of cases, one line each: cases BOOK < CASES
#![tactic(auto)]

mod answer;
mod case;
mod changes;
mod hex;
mod image;
mod unread;
mod values;
mod work;

use cli::ended;
use std::process::ExitCode;
use work::answer_all;

fn main(rt: HostRuntime) -> ExitCode {
    ended(&rt, "cases", answer_all(&rt))
}
