//! Runs the worked rows of data/ through the program's one call.
#![tactic(auto)]

use anyhow::Result;
use craft_server::{Status, dxc_run};
use dxc_leaving::LetGo;
use dxc_notes::Noted;
use dxc_outside::{Link, Listener, Opener, Spawner};
use std::alloc::Global;
use std::sync::Wait;
use std::thread::Threads;
use worked_runs::{Beside, Over, Turn, run_files};

const FILES: [(&str, Over); 5] = [
    ("rows.txt", Over::Files),
    ("journals.txt", Over::Fakes),
    ("faults.txt", Over::Fakes),
    ("standbys.txt", Over::Fakes),
    ("sessions.txt", Over::Threads),
];

fn main(rt: HostRuntime) -> Result<()> {
    run_all(&rt, &rt)
}

fn run_all<R: Threads + Wait + Copy + Send + Drop + 'static>(
    rt: &HostRuntime,
    threads: &R,
) -> Result<()> {
    let alloc = rt.alloc();
    let program = |turn: &mut Turn<R>| match turn {
        Turn::Files(opener, beside) => run(alloc, opener, beside, threads),
        Turn::Fakes(opener, beside) => run(alloc, opener, beside, threads),
        Turn::Threads(opener, beside) => run(alloc, opener, beside, threads),
    };
    run_files(&program, rt, threads, &FILES)
}

fn run<O: Opener + LetGo, K: Link, P: Spawner, R: Wait>(
    alloc: Global,
    opener: &mut O,
    beside: &mut Beside<K, P>,
    threads: &R,
) -> Status
where
    O::Listener: Noted,
    <O::Listener as Listener>::Link: Send + 'static,
    <O::Listener as Noted>::Notes: Send + 'static,
{
    dxc_run(
        alloc,
        &beside.words,
        opener,
        &mut beside.terminal,
        &mut beside.clock,
        &mut beside.gate,
        &mut beside.spawner,
        threads,
    )
}
