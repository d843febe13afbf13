// Prints the answers to listings and jobs that are refused, each fault at least once.
#![tactic(auto)]

mod answer;
mod jobs;
mod listings;

use jobs::print_jobs;
use listings::print_listings;

fn main(rt: HostRuntime) -> anyhow::Result<()> {
    print_listings(&rt)?;
    print_jobs(&rt)
}
