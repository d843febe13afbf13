use session::Reply;
use std::{fmt, io};

// Two hexadecimal digits for each byte, or a hyphen where there is none.
#[derive(Clone, Copy)]
struct Hex<'a>(&'a [u8]);

impl fmt::Display for Hex<'_> {
    fn fmt<W: fmt::Write>(&self, f: &mut fmt::Formatter<W>) -> fmt::Result {
        if self.0.is_empty() {
            return f.write_str("-");
        }
        self.0.iter().try_for_each(|byte| write!(f, "{byte:02X}"))
    }
}

pub fn print_reply(rt: &HostRuntime, reply: &Reply) -> io::Result<()> {
    match reply {
        Reply::NoHandle => println!(rt; "no handle"),
        Reply::Refused(refusal) => println!(rt; "refused {}", refusal.number()),
        Reply::Done => println!(rt; "done"),
        Reply::Turned(turned) => match turned.stop {
            None => println!(rt; "spent {}", turned.steps),
            Some(stop) => println!(rt; "stopped {} {}", turned.steps, stop),
        },
        Reply::Shown(shown) => match shown.stop {
            None => println!(rt; "state {} running", shown.registers),
            Some(stop) => println!(rt; "state {} stopped {}", shown.registers, stop),
        },
        Reply::Copied(bytes) => println!(rt; "bytes {}", Hex(bytes)),
    }
}
