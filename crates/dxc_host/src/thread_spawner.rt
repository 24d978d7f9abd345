ghost use Rattle.std.specs.Prelude.{◌≡◌, [], true, false};

use dxc_outside::{Spawner, Way};
use std::sync::Wait;
use std::thread::{JoinHandle, Threads};

/// Runs each job on a thread of its own.
#[derive(Drop)]
pub struct ThreadSpawner<T> {
    threads: T,
    running: Vec<JoinHandle<()>>,
    starts: u64,
    waited: bool,
    faults: u64,
    last_failed: bool,
    // Where it says that it was waited for, no thread is left to be joined.
    ghost joined: { waited ≡ true → running.items ≡ [] },
}

impl<T: Threads + Wait + Copy + Send + Drop + 'static> ThreadSpawner<T> {
    /// The threads that run are kept after what `running` holds.
    pub fn new(threads: T, running: Vec<JoinHandle<()>>) -> ThreadSpawner<T>
        ensures starts { result.starts ≡ 0 }
        ensures faults { result.faults ≡ 0 }
        ensures waited { running.items ≡ [] → result.waited ≡ true }
        ensures last_failed { result.last_failed ≡ false }
    {
        ThreadSpawner {
            waited: running.is_empty(),
            threads,
            running,
            starts: 0,
            faults: 0,
            last_failed: false,
        }
    }
}

impl<T: Threads + Wait + Copy + Send + Drop + 'static> Spawner for ThreadSpawner<T> {
    type Threads = T;

    ghost state = { λ s. record
        { starts = s.starts; waited = s.waited; faults = s.faults; last_failed = s.last_failed } };

    ghost handed = { λ _ _ _. Unit {0} };

    ghost unhanded = { λ _. tt };

    ghost handed_on = { λ _ _ _ _ _ _ _. tt };

    /// The place for the thread's handle is taken before the thread is started, so that no job is lost for want of it.
    fn way<J>(&mut self, _job: &J) -> Way<T> {
        if self.running.reserve(1).is_err() {
            self.faults = self.faults.saturating_add(1);
            self.last_failed = true;
            return Way::Refused;
        }
        Way::Thread(self.threads)
    }

    fn ran(&mut self) {
        self.starts = self.starts.saturating_add(1);
        self.waited = false;
        self.last_failed = false;
    }

    fn keep(&mut self, handle: JoinHandle<()>) {
        self.starts = self.starts.saturating_add(1);
        self.waited = false;
        self.last_failed = false;
        if let Err(refused) = self.running.push(handle) {
            refused.value.join(&self.threads);
        }
    }

    fn refused(&mut self) {
        self.faults = self.faults.saturating_add(1);
        self.last_failed = true;
    }

    fn wait_all<R: Wait>(&mut self, _rt: &R) {
        while let Some(handle) = self.running.pop() {
            handle.join(&self.threads);
        }
        self.waited = true;
    }
}
