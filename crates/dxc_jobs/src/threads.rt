ghost use Rattle.std.specs.Prelude.{◌≡◌, ◌≤◌, ◌+◌, ◌++◌, ◌∷◌, [], List, IfSome, vec_len, vec_capacity, true};
ghost use Rattle.dxc_outside.specs.Jobs.{any_job, any_jobs};
ghost use Rattle.dxc_outside.specs.Threads.{IsStart};
ghost use Rattle.dxc_jobs.specs.Begun.{AreBegun, AreRan, BegunOf, IfStarted, IsBegun, NextBegun, RanTo, started_of};
ghost use Rattle.dxc_jobs.specs.Leaves.{left_by};
ghost use Rattle.dxc_jobs.specs.Starts.{AreStarts};

use crate::begun::{Begun, RanAll, RanOf, Row};
use crate::task::{Task, run_out};
use dxc_outside::{Spawner, Started, Way};
use std::alloc::Global;
use std::snapshot::Snapshot;
use std::sync::Wait;
use std::thread::{Builder, PromisedHandle, Threads};

/// Starts a job. One whose start failed is dropped.
fn start<J: Task + Send + Drop + 'static, P: Spawner, R: Wait>(
    spawner: &mut P,
    job: J,
    rt: &R,
) -> Option<Begun<J::Left, P::Threads, PromisedHandle<J::Left, RanOf<J>>>>
    ensures started { IsStart (P.state spawner.old) (P.state spawner.new) (started_of result) }
    ensures handed { P.handed spawner.old spawner.new (any_job job ∷ []) }
    ensures begun { IfSome result (λ b. IsBegun (left_by J.ran) job b) }
{
    match spawner.way(&job) {
        Way::Caller => {
            let left = run_out(job, rt);
            spawner.ran();
            Some(Begun::Ended(left))
        }
        Way::Thread(threads) => {
            let promise = RanOf(Snapshot::of(&job));
            match Builder::new().spawn_with(&threads, promise, move || run_out(job, &threads)) {
                Ok(handle) => {
                    spawner.ran();
                    Some(Begun::Running(threads, handle))
                }
                Err(_) => {
                    spawner.refused();
                    None
                }
            }
        }
        Way::Refused => None,
    }
}

/// Waits for a job that was started.
fn wait<J: Task, T: Threads + Copy>(
    begun: Begun<J::Left, T, PromisedHandle<J::Left, RanOf<J>>>,
) -> J::Left
    ensures { (job : J) → IsBegun (left_by J.ran) job begun → left_by J.ran job result }
{
    match begun {
        Begun::Ended(left) => left,
        Begun::Running(threads, handle) => handle.join(&threads),
    }
}

/// Starts one job more. The place for it is taken before, so that none that runs is lost for want of it.
fn start_next<J: Task + Send + Drop + 'static, P: Spawner, R: Wait>(
    spawner: &mut P,
    begun: &mut Vec<Begun<J::Left, P::Threads, PromisedHandle<J::Left, RanOf<J>>>>,
    job: J,
    rt: &R,
) -> Started
    ensures started { IsStart (P.state spawner.old) (P.state spawner.new) result }
    ensures handed { result ≡ Started.Running →
        P.handed spawner.old spawner.new (any_job job ∷ []) }
    ensures begun { IfStarted result (NextBegun (left_by J.ran) job begun.old.items begun.new.items)
        (begun.new.items ≡ begun.old.items) }
{
    if begun.reserve(1).is_err() {
        spawner.refused();
        return Started::Failed;
    }
    match start(spawner, job, rt) {
        Some(one) => match begun.push(one) {
            Ok(()) => Started::Running,
            Err(_) => unreachable!(),
        },
        None => Started::Failed,
    }
}

/// Starts the jobs in their order, up to the first whose start fails.
fn start_each<J: Task + Send + Drop + 'static, P: Spawner, R: Wait>(
    spawner: &mut P,
    jobs: Vec<J>,
    begun: &mut Vec<Begun<J::Left, P::Threads, PromisedHandle<J::Left, RanOf<J>>>>,
    rt: &R,
) -> Started
    requires { begun.old.items ≡ [] }
    ensures starts { AreStarts (vec_len jobs) (P.state spawner.old) (P.state spawner.new) result }
    ensures handed { result ≡ Started.Running → P.handed spawner.old spawner.new
        (any_jobs jobs.items) }
    ensures begun { BegunOf (left_by J.ran) jobs.items result begun.new.items }
{
    for job in jobs {
        if let Started::Failed = start_next(spawner, begun, job, rt) {
            return Started::Failed;
        }
    }
    Started::Running
}

/// Waits for each of the jobs that were started, in their order.
fn wait_each<J: Task, T: Threads + Copy>(
    begun: Vec<Begun<J::Left, T, PromisedHandle<J::Left, RanOf<J>>>>,
    mut lefts: Vec<J::Left>,
) -> Vec<J::Left>
    requires none_yet { lefts.items ≡ [] }
    requires room { vec_len begun ≤ vec_capacity lefts }
    ensures { (jobs : List J) → AreBegun (left_by J.ran) jobs begun.items
        → AreRan (left_by J.ran) jobs result.items }
{
    for one in begun {
        let Ok(()) = lefts.push(wait::<J, T>(one)) else {
            unreachable!()
        };
    }
    lefts
}

/// Starts the jobs in their order, up to the first whose start fails. The room for what they leave is taken before.
fn begin_each<J: Task + Send + Drop + 'static, P: Spawner, R: Wait>(
    alloc: Global,
    spawner: &mut P,
    jobs: Vec<J>,
    rt: &R,
) -> Row<Begun<J::Left, P::Threads, PromisedHandle<J::Left, RanOf<J>>>, J::Left>
    ensures starts { AreStarts (vec_len jobs) (P.state spawner.old) (P.state spawner.new)
        result.started }
    ensures handed { result.started ≡ Started.Running → P.handed spawner.old spawner.new
        (any_jobs jobs.items) }
    ensures begun { BegunOf (left_by J.ran) jobs.items result.started result.begun.items }
    ensures none_yet { result.lefts.items ≡ [] }
    ensures room { vec_len result.begun ≤ vec_capacity result.lefts }
{
    let mut begun = Vec::new(alloc);
    let Ok(lefts) = Vec::with_capacity(alloc, jobs.len()) else {
        spawner.refused();
        return Row {
            started: Started::Failed,
            begun,
            lefts: Vec::new(alloc),
        };
    };
    let started = start_each(spawner, jobs, &mut begun, rt);
    Row {
        started,
        begun,
        lefts,
    }
}

/// Starts the workers' jobs, and the sessions' after them where none of these failed.
fn start_all<J: Task + Send + Drop + 'static, K: Task + Send + Drop + 'static, P: Spawner, R: Wait>(
    alloc: Global,
    spawner: &mut P,
    workers: Vec<J>,
    sessions: Vec<K>,
    rt: &R,
) -> (
    Row<Begun<J::Left, P::Threads, PromisedHandle<J::Left, RanOf<J>>>, J::Left>,
    Row<Begun<K::Left, P::Threads, PromisedHandle<K::Left, RanOf<K>>>, K::Left>,
)
    ensures starts { AreStarts (vec_len workers + vec_len sessions) (P.state spawner.old)
        (P.state spawner.new) result.1.started }
    ensures handed { result.1.started ≡ Started.Running → P.handed spawner.old spawner.new
        (any_jobs workers.items ++ any_jobs sessions.items) }
    ensures workers { BegunOf (left_by J.ran) workers.items result.1.started result.0.begun.items }
    ensures sessions { BegunOf (left_by K.ran) sessions.items
        result.1.started result.1.begun.items }
    ensures none_yet { (result.0.lefts.items ≡ []) × (result.1.lefts.items ≡ []) }
    ensures room { (vec_len result.0.begun ≤ vec_capacity result.0.lefts)
        × (vec_len result.1.begun ≤ vec_capacity result.1.lefts) }
{
    let first = begin_each(alloc, spawner, workers, rt);
    match first.started {
        Started::Running => {
            let second = begin_each(alloc, spawner, sessions, rt);
            (first, second)
        }
        Started::Failed => {
            let none = Row {
                started: Started::Failed,
                begun: Vec::new(alloc),
                lefts: Vec::new(alloc),
            };
            (first, none)
        }
    }
}

/// Runs the workers' jobs and the sessions' jobs, started in this order, to their ends, and hands back what they left. Where a start
/// fails no further job is started; those that run are waited for.
pub fn run_all<
    J: Task + Send + Drop + 'static,
    K: Task + Send + Drop + 'static,
    P: Spawner,
    R: Wait,
>(
    alloc: Global,
    spawner: &mut P,
    workers: Vec<J>,
    sessions: Vec<K>,
    rt: &R,
) -> RanAll<J::Left, K::Left>
    ensures starts { AreStarts (vec_len workers + vec_len sessions) (P.state spawner.old)
        (P.state spawner.new) result.started }
    ensures waited { (P.state spawner.new).waited ≡ true }
    // Where all run, the spawner was handed these jobs, in this order and no other.
    ensures handed { result.started ≡ Started.Running → P.handed spawner.old spawner.new
        (any_jobs workers.items ++ any_jobs sessions.items) }
    // Each of them has run, and left what its run made of it.
    ensures workers { RanTo (left_by J.ran) workers.items result.started result.workers.items }
    ensures sessions { RanTo (left_by K.ran) sessions.items result.started result.sessions.items }
{
    let (
        Row {
            started: _,
            begun,
            lefts,
        },
        Row {
            started,
            begun: more_begun,
            lefts: more_lefts,
        },
    ) = start_all(alloc, spawner, workers, sessions, rt);
    let workers = wait_each::<J, P::Threads>(begun, lefts);
    let sessions = wait_each::<K, P::Threads>(more_begun, more_lefts);
    spawner.wait_all(rt);
    RanAll {
        started,
        workers,
        sessions,
    }
}
