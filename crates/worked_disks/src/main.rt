//! Runs worked rows of what keeps something on a disk, over disks and links in memory, and compares what comes of them with what they say:
//! users that commands keep (`users.txt`), and a primary and its standby (`standbys.txt`).
#![tactic(auto)]

mod ask;
mod opening;
mod pair;
mod primary;
mod standby;
mod standbys;
mod users;

use crate::standbys::standbys_told;
use crate::users::users_told;
use anyhow::Result;
use std::fs;

fn main(rt: HostRuntime) -> Result<()> {
    run_users(&rt)?;
    run_standbys(&rt)
}

fn run_users(rt: &HostRuntime) -> Result<()> {
    let described = fs::read(rt, "users.toml")?;
    let text = fs::read_to_string(rt, "users.txt")?;
    let told = users_told(rt.alloc(), &described, text.as_str())?;
    print!(rt; "{told}")?;
    Ok(())
}

fn run_standbys(rt: &HostRuntime) -> Result<()> {
    let text = fs::read_to_string(rt, "standbys.txt")?;
    let told = standbys_told(rt.alloc(), text.as_str())?;
    print!(rt; "{told}")?;
    Ok(())
}
