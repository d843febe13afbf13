use std::{env, io};

// The words that the program is given.
pub fn words(rt: &HostRuntime) -> io::Result<Vec<String>> {
    Ok(env::args(rt)?.skip(1).collect(rt.alloc())?)
}

#[cfg(test)]
mod tests {
    use super::*;

    #[test]
    fn a_program_has_its_words(rt: HostRuntime) {
        assert!(rt; words(&rt).is_ok());
    }
}
