use crate::turn::{Turn, beside_of};
use anyhow::Result;
use dxc_args::Status;
use dxc_host::HostOpener;
use std::alloc::Global;
use std::sync::Wait;
use std::thread::Threads;
use worked_common::{Due, Office, Part, opener_of, spelled};

/// Makes a row's runs, one after the other. Some: the first thing that isn't as it must be.
pub fn run_row<R: Threads + Wait + Copy + Send + Drop + 'static, F: Fn(&mut Turn<R>) -> Status>(
    program: &F,
    rt: &HostRuntime,
    row: Part<'_, '_>,
    on_files: bool,
) -> Result<Option<String>>
    requires { F.IsAlwaysCallable program.now }
{
    let mut office = Office::of(rt, row.front(&["run"]))?;
    let runs = row.parts(rt.alloc(), &["run"])?;
    make_runs(program, rt, &runs, &mut office, on_files)
}

// Makes these runs, of which the last one comes first, in the office.
fn make_runs<R: Threads + Wait + Copy + Send + Drop + 'static, F: Fn(&mut Turn<R>) -> Status>(
    program: &F,
    rt: &HostRuntime,
    runs: &[Part<'_, '_>],
    office: &mut Office<'_>,
    on_files: bool,
) -> Result<Option<String>>
    requires { F.IsAlwaysCallable program.now }
{
    for run in runs.iter().rev() {
        let mut due = Due::new(rt.alloc())?;
        let why = make_run(program, rt, *run, office, &mut due, on_files)?;
        if why.is_some() {
            return Ok(why);
        }
    }
    Ok(None)
}

// Makes a run, which leaves its files in the office.
fn make_run<R: Threads + Wait + Copy + Send + Drop + 'static, F: Fn(&mut Turn<R>) -> Status>(
    program: &F,
    rt: &HostRuntime,
    run: Part<'_, '_>,
    office: &mut Office<'_>,
    due: &mut Due,
    on_files: bool,
) -> Result<Option<String>>
    requires { F.IsAlwaysCallable program.now }
{
    let alloc = rt.alloc();
    let status = if on_files {
        office.write(rt)?;
        let status = over_files(program, rt, run, office.sid, due)?;
        office.read(rt)?;
        status
    } else {
        let status = over_fakes(program, alloc, run, office, due)?;
        due.leave(alloc, office)?;
        status
    };
    otherwise(alloc, run, status, due, office)
}

// The status of the program over files of the system.
fn over_files<R: Threads + Wait + Copy + Send + Drop + 'static, F: Fn(&mut Turn<R>) -> Status>(
    program: &F,
    rt: &HostRuntime,
    run: Part<'_, '_>,
    sid: &str,
    due: &mut Due,
) -> Result<Status>
    requires { F.IsAlwaysCallable program.now }
{
    let alloc = rt.alloc();
    let beside = beside_of::<R>(alloc, run, sid, due)?;
    let opener = HostOpener::new(*rt, Vec::new(alloc));
    Ok(program(&mut Turn::Files(opener, beside)))
}

// The same over fakes; all that it is lent is dropped.
fn over_fakes<R: Threads + Wait + Copy + Send + Drop + 'static, F: Fn(&mut Turn<R>) -> Status>(
    program: &F,
    alloc: Global,
    run: Part<'_, '_>,
    office: &Office<'_>,
    due: &mut Due,
) -> Result<Status>
    requires { F.IsAlwaysCallable program.now }
{
    let opener = opener_of(alloc, run, office, due)?;
    let beside = beside_of::<R>(alloc, run, office.sid, due)?;
    Ok(program(&mut Turn::Fakes(opener, beside)))
}

// What isn't as the lines of a run say.
fn otherwise(
    alloc: Global,
    run: Part<'_, '_>,
    status: Status,
    due: &Due,
    office: &Office<'_>,
) -> Result<Option<String>> {
    let end = spelled(alloc, &status)?;
    let why = due.otherwise(alloc, run, status.number() as u64, end.as_str())?;
    if why.is_some() {
        return Ok(why);
    }
    office.otherwise(alloc, run)
}
