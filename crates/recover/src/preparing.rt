ghost use Rattle.recover.specs.Clashes.{first_clash, first_of_bay};
ghost use Rattle.std.specs.Option.{option_copied};
ghost use Rattle.std.specs.Prelude.{◌≡◌};

use crate::institute::Institute;
use access::Grant;
use bays::{Refusal, clash_with_any};
use cli::{Failure, Fault};
use session::{Deed, Reply, Request, Session};
use std::alloc::{AllocError, Global};
use store::Store;

// Serves a request of a bay, and tells whether it was refused.
fn serve<S: Store + Drop>(
    alloc: Global,
    session: &mut Session<S>,
    bay: u8,
    deed: Deed,
) -> Result<Option<Refusal>, AllocError> {
    match session.serve(alloc, &Request { bay, deed })? {
        Reply::Refused(refusal) => Ok(Some(refusal)),
        _ => Ok(None),
    }
}

// The first of them whose bay has this number.
fn of_bay<'a, 'b>(institutes: &'a [Institute<'b>], bay: u8) -> Option<&'a Institute<'b>>
    ensures { option_copied result ≡ first_of_bay bay institutes.now }
{
    institutes
        .iter()
        .find(|institute| institute.job.number == bay)
}

// A refused open; a bay that is taken is told with the earlier job that has it.
fn refused_open(
    alloc: Global,
    earlier: &[Institute],
    bay: u8,
    refusal: Refusal,
) -> Result<Fault, AllocError> {
    match of_bay(earlier, bay) {
        Some(other) if refusal == Refusal::Taken => Ok(Fault::Taken {
            bay,
            job: String::from_str(alloc, other.name)?,
        }),
        _ => Ok(Fault::Opening { bay, refusal }),
    }
}

fn open<S: Store + Drop>(
    alloc: Global,
    session: &mut Session<S>,
    earlier: &[Institute],
    institute: &Institute,
) -> Result<(), Failure> {
    let bay = institute.job.number;
    match serve(alloc, session, bay, Deed::Open)? {
        None => Ok(()),
        Some(refusal) => {
            let fault = refused_open(alloc, earlier, bay, refusal)?;
            Err(Failure::of_file(alloc, institute.name, fault))
        }
    }
}

// The first of them that has a grant with which this one clashes.
fn clashing<'a, 'b>(institutes: &'a [Institute<'b>], grant: Grant) -> Option<&'a Institute<'b>>
    ensures { option_copied result ≡ first_clash grant institutes.now }
{
    institutes.iter().find(|institute| clash_with_any(grant, &institute.job.rights.grants))
}

// A refused grant; one that clashes is told with the bay that it clashes with, which is of one of the earlier jobs.
fn refused_grant(
    alloc: Global,
    earlier: &[Institute],
    grant: Grant,
    refusal: Refusal,
) -> Result<Fault, AllocError> {
    let Grant { kind, first, last } = grant;
    match clashing(earlier, grant) {
        Some(other) if refusal == Refusal::Clash => Ok(Fault::Clash {
            kind,
            first,
            last,
            bay: other.job.number,
            job: String::from_str(alloc, other.name)?,
        }),
        _ => Ok(Fault::Granting {
            kind,
            first,
            last,
            refusal,
        }),
    }
}

fn add_grant<S: Store + Drop>(
    alloc: Global,
    session: &mut Session<S>,
    earlier: &[Institute],
    institute: &Institute,
    grant: Grant,
) -> Result<(), Failure> {
    match serve(alloc, session, institute.job.number, Deed::Grant(grant))? {
        None => Ok(()),
        Some(refusal) => {
            let fault = refused_grant(alloc, earlier, grant, refusal)?;
            Err(Failure::of_file(alloc, institute.name, fault))
        }
    }
}

// Opens the bay of a job, gives it its grants, and seals it; where that is refused the job is named.
fn prepare<S: Store + Drop>(
    alloc: Global,
    session: &mut Session<S>,
    earlier: &[Institute],
    institute: &Institute,
) -> Result<(), Failure> {
    open(alloc, session, earlier, institute)?;
    for grant in institute.job.rights.grants.iter().flatten() {
        add_grant(alloc, session, earlier, institute, *grant)?;
    }
    let _sealed = serve(alloc, session, institute.job.number, Deed::Seal)?;
    Ok(())
}

// The bays of all jobs, in the order of the jobs.
pub fn prepare_all<S: Store + Drop>(
    alloc: Global,
    session: &mut Session<S>,
    institutes: &[Institute],
) -> Result<(), Failure> {
    for (number, institute) in institutes.iter().enumerate() {
        prepare(alloc, session, &institutes[..number], institute)?;
    }
    Ok(())
}

#[cfg(test)]
mod tests {
    use super::*;
    use crate::report::Tally;
    use book::Book;
    use cli::zeroed;
    use job::read_job;
    use std::process::Abort;
    use std::test::Fail;
    use store::Owned;

    // Only the second has a grant that clashes with one of the third: both may read the first one's bytes.
    const FIRST: &[u8] =
        b"bay\t3\ngrant\tread\t0\t99\ngrant\twrite\t100\t199\nregisters\t0\t0\t0\t0\t0\t0\t0\ninput\t100\t1\noutput\t100\t1\nturns\t1\t1\nrecords\ta\nresults\tb\n";

    const SECOND: &[u8] =
        b"bay\t5\ngrant\twrite\t200\t299\nregisters\t0\t0\t0\t0\t0\t0\t0\ninput\t200\t1\noutput\t200\t1\nturns\t1\t1\nrecords\ta\nresults\tc\n";

    const THIRD: &[u8] =
        b"bay\t1\ngrant\tread\t50\t99\ngrant\twrite\t299\t400\nregisters\t0\t0\t0\t0\t0\t0\t0\ninput\t300\t1\noutput\t300\t1\nturns\t1\t1\nrecords\ta\nresults\td\n";

    fn institute<'a>(
        rt: &impl Abort,
        alloc: Global,
        name: &'a str,
        text: &'a [u8],
    ) -> Institute<'a> {
        let Ok(job) = read_job(text) else {
            panic!(rt; "a job");
        };
        Institute {
            name,
            tally: Tally::new(job.registers),
            job,
            records: Vec::new(alloc),
            results: Vec::new(alloc),
        }
    }

    #[test]
    fn a_grant_is_told_with_the_bay_that_it_clashes_with(rt: HostRuntime) -> Result<(), Fail> {
        let alloc = rt.alloc();
        let institutes = [
            institute(&rt, alloc, "a.job", FIRST),
            institute(&rt, alloc, "b.job", SECOND),
            institute(&rt, alloc, "c.job", THIRD),
        ];
        let mut session = Session::new(Owned::new(zeroed(alloc, 65536)?), Book::new());
        let Err(failure) = prepare_all(alloc, &mut session, &institutes) else {
            panic!(rt; "a clash");
        };
        let told = failure.to_string(alloc)?;
        assert_eq!(rt;
            told.as_str(),
            "c.job: grant write 299 400 is refused with 6: it clashes with a grant of bay 5 (b.job)"
        );
        Ok(())
    }

    #[test]
    fn a_bay_that_is_taken_is_told_with_the_job_that_has_it(rt: HostRuntime) -> Result<(), Fail> {
        let alloc = rt.alloc();
        let institutes = [
            institute(&rt, alloc, "a.job", FIRST),
            institute(&rt, alloc, "b.job", SECOND),
            institute(&rt, alloc, "c.job", SECOND),
        ];
        let mut session = Session::new(Owned::new(zeroed(alloc, 65536)?), Book::new());
        let Err(failure) = prepare_all(alloc, &mut session, &institutes) else {
            panic!(rt; "a bay that is taken");
        };
        let told = failure.to_string(alloc)?;
        assert_eq!(rt;
            told.as_str(),
            "c.job: open of bay 5 is refused with 3: the bay is taken by an earlier job (b.job)"
        );
        Ok(())
    }
}
