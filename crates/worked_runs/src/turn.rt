use anyhow::Result;
use dxc_host::{HostOpener, ThreadSpawner};
use dxc_outside::{MemClock, MemGate, MemLink, MemSpawner, Name};
use std::alloc::Global;
use std::sync::Wait;
use std::thread::Threads;
use worked_common::{Due, Lent, Part, RowLink, RowOpener, lend};
use worked_meetings::{SessionsOpener, standing};

/// A run of the program: its opener, and what it is lent beside that.
#[derive(Drop)]
pub enum Turn<R> {
    /// Over files of the system.
    Files(HostOpener<HostRuntime>, Beside<RowLink, MemSpawner<R>>),
    /// Over fakes.
    Fakes(RowOpener, Beside<RowLink, MemSpawner<R>>),
    /// Over fakes, on threads.
    Threads(SessionsOpener, Beside<MemLink, ThreadSpawner<R>>),
}

/// What a run of the program is lent beside its opener.
#[derive(Drop)]
pub struct Beside<K, P> {
    pub words: Vec<Name>,
    pub terminal: K,
    pub clock: MemClock,
    pub gate: MemGate,
    pub spawner: P,
}

/// What the run of these lines is lent, for an element of this name. Its clock stands.
pub fn beside_of<R: Threads + Wait + Copy + Send + Drop + 'static>(
    alloc: Global,
    run: Part<'_, '_>,
    sid: &str,
    due: &mut Due,
) -> Result<Beside<RowLink, MemSpawner<R>>> {
    let starts = run.failing(alloc, "starts")?;
    let Lent {
        words,
        gate,
        terminal,
    } = lend(alloc, sid, run, due)?;
    Ok(Beside {
        words,
        terminal,
        clock: standing(alloc),
        gate,
        spawner: MemSpawner::new(starts),
    })
}
