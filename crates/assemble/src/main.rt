// Makes a store image of a listing: assemble BOOK LISTING IMAGE
#![tactic(auto)]

mod print;
mod work;

use cli::{Failure, ended};
use std::process::ExitCode;
use work::assemble;

fn main(rt: HostRuntime) -> ExitCode {
    match assemble(&rt) {
        Err(Failure::Memory(_)) => {
            let _ = eprintln!(rt; "assemble: out of memory");
            ExitCode::FAILURE
        }
        outcome => ended(&rt, "assemble", outcome),
    }
}
