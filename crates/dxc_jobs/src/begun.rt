ghost use Rattle.dxc_jobs.specs.Leaves.{left_by};

use crate::task::Task;
use dxc_outside::Started;
use std::snapshot::Snapshot;
use std::thread::Promise;

/// A job, as clauses see it: what its thread hands back is what its run made of it.
#[derive(Drop)]
pub struct RanOf<J>(pub Snapshot<J>);

impl<J: Task> Promise<J::Left> for RanOf<J> {
    ghost kept_by = { λ p left. left_by J.ran p.0.value left };
}

/// A job that was started: what it left, or the thread on which it runs, with what joins that thread.
#[derive(Drop)]
pub enum Begun<E, T, H> {
    Ended(E),
    Running(T, H),
}

/// Jobs that were begun, in their order, with the room for what they leave.
#[derive(Drop)]
pub struct Row<B, E> {
    pub started: Started,
    pub begun: Vec<B>,
    pub lefts: Vec<E>,
}

/// What jobs left: each that was started, and all of them where it says that they run.
#[derive(Drop)]
pub struct RanAll<E, F> {
    pub started: Started,
    pub workers: Vec<E>,
    pub sessions: Vec<F>,
}
