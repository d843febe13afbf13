ghost use Rattle.std.specs.Prelude.{◌≡◌};
ghost use Rattle.job.specs.Text.{job_of, shown_job};

use crate::draft::Draft;
use crate::fault::Refused;
use crate::job::Job;
use text::{at_line, take_lines};

/// A job's text, whole.
#[tactic(auto, unfolding(crate::specs::Text::job_of))]
pub fn read_job(text: &[u8]) -> Result<Job<'_>, Refused>
    ensures { shown_job result ≡ job_of text.now }
{
    let mut draft = Draft::default();
    let line = take_lines(&mut draft, text)?;
    at_line(draft.finish(), line)
}
