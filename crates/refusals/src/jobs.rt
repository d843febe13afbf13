// Jobs: each fault at least once, and one that is taken.
use crate::answer::print_answer;
use job::read_job;

const JOBS: [&[u8]; 15] = [
    b"",
    b"bay\t2",
    b"bay\t2\nbay\t2\n",
    b"bay\t2\n\n# eight at most\nbay\t9\n",
    b"bay\t2\t\n",
    b"bays\t2\n",
    b"results\t\n",
    b"registers\t0\t0\t65536\t0\t0\t0\t0\n",
    b"input\t65534\t2\n",
    b"grant\tboth\t1\t2\n",
    b"grant\tread\t100\t99\n",
    b"grant\tread\t1\t1\ngrant\tread\t1\t1\ngrant\tread\t1\t1\ngrant\tread\t1\t1\ngrant\tread\t1\t1\ngrant\tread\t1\t1\ngrant\twrite\t1\t1\n",
    b"grant\tread\t100\t200\ngrant\twrite\t200\t300\n",
    b"bay\t1\ngrant\tread\t0\t9\nregisters\t0\t0\t0\t0\t0\t0\t0\ninput\t0\t1\noutput\t0\t1\nturns\t1\t1\nrecords\ta\nresults\tb\n",
    b"# a job\nbay\t2\ngrant\tread\t256\t511\ngrant\twrite\t8192\t10239\n\nregisters\t0\t0\t0\t1\t2\t3\t4\ninput\t8192\t1024\noutput\t256\t4\nturns\t32\t4096\nrecords\ta\nresults\tb\n",
];

pub fn print_jobs(rt: &HostRuntime) -> anyhow::Result<()> {
    for text in JOBS {
        print_answer(rt, "a job", read_job(text))?;
    }
    Ok(())
}
