use job::Job;
use session::{Deed, Reply, Request};
use std::alloc::{AllocError, Global};

// The bay of a job is prepared and gets a record, and its program runs so often on it.
pub fn requests(
    alloc: Global,
    job: &Job,
    record: &[u8],
    runs: u32,
) -> Result<Vec<Request>, AllocError> {
    let bay = job.number;
    let mut deeds = vec![in alloc; Deed::Open]?;
    for grant in job.rights.grants.iter().flatten() {
        deeds.push(Deed::Grant(*grant))?;
    }
    deeds.push(Deed::Seal)?;
    deeds.push(Deed::Load(job.input.address, record.to_vec(alloc)?))?;
    for _ in 0..runs {
        deeds.push(Deed::Set(job.registers))?;
        for _ in 0..job.turns.count {
            deeds.push(Deed::Turn(job.turns.budget))?;
        }
    }
    deeds
        .into_iter()
        .map(|deed| Request { bay, deed })
        .collect(alloc)
}

// The steps of all turns.
pub fn steps(replies: &[Reply]) -> u64 {
    let mut steps = 0u64;
    for reply in replies {
        if let Reply::Turned(turned) = reply {
            steps = steps.saturating_add(u64::from(turned.steps));
        }
    }
    steps
}
