use crate::call::read_call;
use cli::Failure;
use session::Request;
use std::alloc::{AllocError, Global};
use text::{Line, Lines};

// Blank lines and comments ask nothing.
fn is_silent(line: &[u8]) -> bool {
    match line {
        [b'#', ..] => true,
        _ => line.iter().all(|byte| *byte == b' '),
    }
}

fn take_line(alloc: Global, requests: &mut Vec<Request>, line: Line) -> Result<(), Failure> {
    if is_silent(line.text) {
        return Ok(());
    }
    let request = read_call(alloc, line.text)?.ok_or(Failure::NoCall { line: line.number })?;
    requests.push(request).map_err(AllocError::from)?;
    Ok(())
}

// The calls of a script, each a line of it.
pub fn read_script(alloc: Global, text: &[u8]) -> Result<Vec<Request>, Failure> {
    let mut requests = Vec::new(alloc);
    let mut lines = Lines::new(text);
    'lines: while let Some(line) = lines.next_line()? {
        take_line(alloc, &mut requests, line)?;
    }
    Ok(requests)
}
