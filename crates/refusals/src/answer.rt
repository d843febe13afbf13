use std::fmt::Display;
use std::io;

// What a text is told: its refusal, or what it is where it has none.
pub fn print_answer<T: Drop, E: Display + Drop>(
    rt: &HostRuntime,
    accepted: &str,
    answer: Result<T, E>,
) -> io::Result<()> {
    match answer {
        Ok(_) => println!(rt; "{accepted}"),
        Err(refused) => println!(rt; "{refused}"),
    }
}
