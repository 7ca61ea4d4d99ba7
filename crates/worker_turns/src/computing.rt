ghost use Rattle.std.specs.Prelude.{◌≡◌, IfOk};

use crate::{Done, Job, Ready};
use base_types::OutOfMemory;
use std::alloc::Global;
use step_code::Rules;

/// What a bot gives of a message. It is computed between two holds.
pub fn compute<R: Rules>(
    alloc: Global,
    rules: &R,
    ready: &mut Ready<R::Work>,
    job: Job,
) -> Result<Done, OutOfMemory>
    ensures job { IfOk result (λ done. done.job ≡ job) }
    ensures given { IfOk result (λ done. done.given ≡ R.meaning.give (R.task_of ready.old.work) job.message.body job.since.0) }
    ensures bundle { ready.new.bundle ≡ ready.old.bundle }
    ensures task { R.task_of ready.new.work ≡ R.task_of ready.old.work }
{
    let given = rules.give(alloc, &mut ready.work, &job.message.body, job.since)?;
    Ok(Done { job, given })
}
