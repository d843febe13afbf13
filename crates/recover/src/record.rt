ghost use Rattle.history.specs.Calls.{own, turn};
ghost use Rattle.recover.specs.Records.{asked};
ghost use Rattle.recover.specs.Runs.{RunsByTheRules, asked_all, is_stop, noted, noting, record_end, record_run};
ghost use Rattle.session.specs.Serve.{said};
ghost use Rattle.std.specs.Prelude.{◌≡◌, ◌∷◌, IfOk, OnOk, [], replicate};

use job::{Job, Ran, Turns};
use session::{Deed, Reply, Request, Session};
use std::alloc::{AllocError, Global};
use store::Store;

// What a reply says of a run: its steps, how it ended, its output.
fn note(ran: &mut Ran, results: &mut Vec<u8>, reply: &Reply) -> Result<(), AllocError>
    ensures { OnOk result (noting ran.new results.new.items
        ≡ noted (said reply.now) (noting ran.old results.old.items)) }
{
    match reply {
        Reply::Turned(turned) => ran.steps = ran.steps.saturating_add(u32::from(turned.steps)),
        Reply::Shown(shown) => {
            ran.registers = shown.registers;
            ran.stop = shown.stop;
        }
        Reply::Copied(bytes) => results.extend_from_slice(bytes)?,
        Reply::NoHandle | Reply::Refused(_) | Reply::Done => {}
    }
    Ok(())
}

// A request, and what its reply says.
fn ask<S: Store + Drop>(
    alloc: Global,
    session: &mut Session<S>,
    request: &Request,
    ran: &mut Ran,
    results: &mut Vec<u8>,
) -> Result<(), AllocError>
    ensures { OnOk result (record_end (noting ran.new results.new.items) session.new
        ≡ asked_all (asked request.now ∷ []) (noting ran.old results.old.items) session.old) }
{
    let reply = session.serve(alloc, request)?;
    note(ran, results, &reply)
}

// Whether a turn ended by a stop, or met one that stands.
fn is_stopped(reply: &Reply) -> bool
    ensures { result ≡ is_stop (said reply.now) }
{
    matches!(reply, Reply::Turned(turned) if turned.stop.is_some())
}

// So many turns of a budget, or those up to a stop: one under a standing stop takes no step.
fn take_turns<S: Store + Drop>(
    alloc: Global,
    session: &mut Session<S>,
    bay: u8,
    turns: Turns,
    ran: &mut Ran,
    results: &mut Vec<u8>,
) -> Result<(), AllocError>
    ensures { OnOk result (record_end (noting ran.new results.new.items) session.new
        ≡ asked_all (replicate turns.count (bay, own (turn turns.budget))) (noting ran.old results.old.items) session.old) }
{
    let request = Request {
        bay,
        deed: Deed::Turn(turns.budget),
    };
    for _ in 0..turns.count {
        let reply = session.serve(alloc, &request)?;
        note(ran, results, &reply)?;
        if is_stopped(&reply) {
            return Ok(());
        }
    }
    Ok(())
}

// All turns of the job. Two turns, one after the other, are one turn of as many steps as both: so they are asked for as the longest turns
// that there are, and one for the rest.
fn take_all_turns<S: Store + Drop>(
    alloc: Global,
    session: &mut Session<S>,
    job: &Job,
    ran: &mut Ran,
    results: &mut Vec<u8>,
) -> Result<(), AllocError>
    ensures { OnOk result (record_end (noting ran.new results.new.items) session.new
        ≡ asked_all (replicate job.now.turns.count (job.now.number, own (turn job.now.turns.budget)))
        (noting ran.old results.old.items) session.old) }
{
    if job.turns.count == 0 {
        return Ok(());
    }
    let bay = job.number;
    let steps = u32::from(job.turns.count) * u32::from(job.turns.budget);
    let longest = Turns {
        count: (steps / 65535) as u16,
        budget: 65535,
    };
    take_turns(alloc, session, bay, longest, ran, results)?;
    let rest = Request {
        bay,
        deed: Deed::Turn((steps % 65535) as u16),
    };
    ask(alloc, session, &rest, ran, results)?;
    Ok(())
}

// The requests of a run, one after the other.
fn ask_all<S: Store + Drop>(
    alloc: Global,
    session: &mut Session<S>,
    job: &Job,
    counts: &[u8],
    results: &mut Vec<u8>,
) -> Result<Ran, AllocError>
    ensures { IfOk result (λ ran. record_end (noting ran results.new.items) session.new
        ≡ record_run job.now counts.now results.old.items session.old) }
{
    let bay = job.number;
    let mut ran = Ran {
        steps: 0,
        registers: job.registers,
        stop: None,
    };
    let held = counts.to_vec(alloc)?;
    let load = Request {
        bay,
        deed: Deed::Load(job.input.address, held),
    };
    let set = Request {
        bay,
        deed: Deed::Set(job.registers),
    };
    let look = Request {
        bay,
        deed: Deed::Look,
    };
    let copy = Request {
        bay,
        deed: Deed::Copy(job.output.address, job.output.bytes()),
    };
    ask(alloc, session, &load, &mut ran, results)?;
    ask(alloc, session, &set, &mut ran, results)?;
    take_all_turns(alloc, session, job, &mut ran, results)?;
    ask(alloc, session, &look, &mut ran, results)?;
    ask(alloc, session, &copy, &mut ran, results)?;
    Ok(ran)
}

// Runs the job on a record in its bay; the output goes to the end of `results`.
#[tactic(auto, using(crate::proofs::Runs::runs_by_the_rules))]
pub fn run_record<S: Store + Drop>(
    alloc: Global,
    session: &mut Session<S>,
    job: &Job,
    counts: &[u8],
    results: &mut Vec<u8>,
) -> Result<Ran, AllocError>
    ensures is { IfOk result (λ ran. record_end (noting ran results.new.items) session.new
        ≡ record_run job.now counts.now results.old.items session.old) }
    ensures by_the_rules { RunsByTheRules }
{
    ask_all(alloc, session, job, counts, results)
}
