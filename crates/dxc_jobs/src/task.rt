ghost use Rattle.dxc_jobs.specs.Leaves.{left_by};

use std::sync::Wait;

/// A job that runs to its end, beside others. After its end it lets go what it held of its surroundings, and hands back the rest.
pub trait Task {
    /// What a job lets go: nothing is called on it after the run.
    type Done: Send + Drop + 'static;

    /// What a job leaves.
    type Left: Send + Drop + 'static;

    /// What a run made of a job. Nothing but `run` gives it of a job of any type, so a call that has it of a job did run that job.
    ghost ran: { Self → Self.Done → Self.Left → Type 0 };

    fn run<R: Wait>(self, rt: &R) -> (Self::Done, Self::Left)
        ensures { ran self result.0 result.1 };
}

/// Runs a job, and lets go what it held.
pub(crate) fn run_out<J: Task, R: Wait>(job: J, rt: &R) -> J::Left
    ensures { left_by J.ran job result }
{
    let (done, left) = job.run(rt);
    drop(done);
    left
}
