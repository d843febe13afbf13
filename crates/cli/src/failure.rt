ghost use Rattle.std.specs.Prelude.{◌≡◌};
ghost use Rattle.cli.specs.Faults.{IsAbout, IsOfFile};
ghost use Rattle.cli.specs.declared.failure.Failure.TheVariants.{Memory, System, Unended as NoLineFeed};

use access::Kind;
use bays::Refusal;
use std::alloc::{AllocError, Global};
use std::io;
use store::SizeError;
use text::Unended;
use thiserror::Error;

// What is wrong with a file.
#[derive(Debug, Drop, Error)]
pub enum Fault {
    #[error("{0}")]
    System(io::Error),
    #[error("{0}")]
    Book(book::Refused),
    #[error("the image is refused with {}: it has {bytes} bytes in place of 65536", .unmade.number())]
    Image {
        unmade: SizeError,
        bytes: usize,
    },
    #[error("{0}")]
    Job(job::Refused),
    #[error("{0}")]
    Listing(listing::Refused),
    // No whole number of records of that size.
    #[error("{bytes} bytes are no whole number of records of {size} bytes")]
    Records {
        bytes: usize,
        size: usize,
    },
    #[error("it has no record")]
    NoRecord,
    #[error("open of bay {bay} is refused with {}: {refusal}", .refusal.number())]
    Opening {
        bay: u8,
        refusal: Refusal,
    },
    // Refused for an earlier job, which has that bay.
    #[error("open of bay {bay} is refused with {}: the bay is taken by an earlier job ({job})", Refusal::Taken.number())]
    Taken {
        bay: u8,
        job: String,
    },
    #[error("grant {kind} {first} {last} is refused with {}: {refusal}", .refusal.number())]
    Granting {
        kind: Kind,
        first: u16,
        last: u16,
        refusal: Refusal,
    },
    // Refused for a grant of that bay, which is of that job.
    #[error("grant {kind} {first} {last} is refused with {}: it clashes with a grant of bay {bay} ({job})", Refusal::Clash.number())]
    Clash {
        kind: Kind,
        first: u16,
        last: u16,
        bay: u8,
        job: String,
    },
    // By the record's number, from 1.
    #[error("the run of record {record} did not halt")]
    Unhalted {
        record: u64,
    },
    // An output file that is there already, by what the program calls it.
    #[error("{0} exists already, and is not overwritten")]
    Exists(&'static str),
    #[error("it is the results file of an earlier job too")]
    Claimed,
}

// Why a program ends with status 1; printed, it is the line that says so.
#[derive(Debug, Drop, Error)]
pub enum Failure {
    #[error("use: {0}")]
    Usage(&'static str),
    #[error("{0}: {1}")]
    File(String, Fault),
    // A run that did not halt, in the program's words.
    #[error("{0}")]
    Unhalted(&'static str),
    #[error("line {line} is no call")]
    NoCall { line: usize },
    #[error("line {line} is no case")]
    NoCase { line: usize },
    #[error("line {line} lacks its line feed")]
    Unended { line: usize },
    #[error("{0}")]
    System(io::Error),
    #[error("{0}")]
    Memory(AllocError),
}

impl Failure {
    // A fault of the file of that name.
    pub fn of_file(alloc: Global, name: &str, fault: Fault) -> Failure
        ensures { IsOfFile name.now fault result }
    {
        match String::from_str(alloc, name) {
            Ok(name) => Failure::File(name, fault),
            Err(e) => Failure::Memory(e),
        }
    }

    // What the system said, as a fault of the file of that name.
    pub fn about(self, alloc: Global, name: &str) -> Failure
        ensures { IsAbout name.now self result }
    {
        match self {
            Failure::System(e) => Failure::of_file(alloc, name, Fault::System(e)),
            other => other,
        }
    }
}

impl From<AllocError> for Failure {
    ghost from_gives = { λ e failure. failure ≡ Memory e };

    fn from(e: AllocError) -> Failure {
        Failure::Memory(e)
    }
}

impl From<Unended> for Failure {
    ghost from_gives = { λ unended failure. failure ≡ NoLineFeed unended.line };

    fn from(unended: Unended) -> Failure {
        Failure::Unended { line: unended.line }
    }
}

impl From<io::Error> for Failure {
    ghost from_gives = { λ e failure. failure ≡ System e };

    fn from(e: io::Error) -> Failure {
        Failure::System(e)
    }
}

#[cfg(test)]
mod tests {
    use super::*;
    use std::test::Fail;

    #[test]
    fn a_fault_is_told_with_its_file(rt: HostRuntime) -> Result<(), Fail> {
        let fault = Fault::Records { bytes: 3, size: 2 };
        let told = Failure::of_file(rt.alloc(), "a.rec", fault).to_string(rt.alloc())?;
        assert_eq!(rt;
            told.as_str(),
            "a.rec: 3 bytes are no whole number of records of 2 bytes"
        );
        Ok(())
    }

    #[test]
    fn a_refused_grant_is_told_with_its_job(rt: HostRuntime) -> Result<(), Fail> {
        let fault = Fault::Granting {
            kind: Kind::Write,
            first: 4128,
            last: 4159,
            refusal: Refusal::Full,
        };
        let told = Failure::of_file(rt.alloc(), "undo.job", fault).to_string(rt.alloc())?;
        assert_eq!(rt;
            told.as_str(),
            "undo.job: grant write 4128 4159 is refused with 5: the bay has six grants"
        );
        Ok(())
    }

    #[test]
    fn a_grant_that_clashes_is_told_with_the_other_bay(rt: HostRuntime) -> Result<(), Fail> {
        let fault = Fault::Clash {
            kind: Kind::Write,
            first: 4128,
            last: 4159,
            bay: 1,
            job: String::from_str(rt.alloc(), "calibrate.job")?,
        };
        let told = Failure::of_file(rt.alloc(), "undo.job", fault).to_string(rt.alloc())?;
        assert_eq!(rt;
            told.as_str(),
            "undo.job: grant write 4128 4159 is refused with 6: it clashes with a grant of bay 1 (calibrate.job)"
        );
        Ok(())
    }

    #[test]
    fn a_refused_opening_is_told_with_its_job(rt: HostRuntime) -> Result<(), Fail> {
        let fault = Fault::Opening {
            bay: 9,
            refusal: Refusal::NoSuchBay,
        };
        let told = Failure::of_file(rt.alloc(), "undo.job", fault).to_string(rt.alloc())?;
        assert_eq!(rt;
            told.as_str(),
            "undo.job: open of bay 9 is refused with 1: no bay has this number"
        );
        Ok(())
    }

    #[test]
    fn a_bay_that_is_taken_is_told_with_the_earlier_job(rt: HostRuntime) -> Result<(), Fail> {
        let fault = Fault::Taken {
            bay: 1,
            job: String::from_str(rt.alloc(), "calibrate.job")?,
        };
        let told = Failure::of_file(rt.alloc(), "undo.job", fault).to_string(rt.alloc())?;
        assert_eq!(rt;
            told.as_str(),
            "undo.job: open of bay 1 is refused with 3: the bay is taken by an earlier job (calibrate.job)"
        );
        Ok(())
    }

    #[test]
    fn a_run_that_did_not_halt_is_told_with_its_record(rt: HostRuntime) -> Result<(), Fail> {
        let fault = Fault::Unhalted { record: 3 };
        let told = Failure::of_file(rt.alloc(), "undo.job", fault).to_string(rt.alloc())?;
        assert_eq!(rt; told.as_str(), "undo.job: the run of record 3 did not halt");
        Ok(())
    }

    #[test]
    fn a_line_that_is_no_case_is_told_by_its_number(rt: HostRuntime) -> Result<(), Fail> {
        let told = Failure::NoCase { line: 3 }.to_string(rt.alloc())?;
        assert_eq!(rt; told.as_str(), "line 3 is no case");
        Ok(())
    }

    #[test]
    fn what_the_system_says_is_told_with_its_file(rt: HostRuntime) -> Result<(), Fail> {
        let said = Failure::System(io::Error::from(io::ErrorKind::NotFound));
        let told = said.about(rt.alloc(), "a.rec").to_string(rt.alloc())?;
        assert!(rt; told.as_str().starts_with("a.rec: "));
        Ok(())
    }
}
