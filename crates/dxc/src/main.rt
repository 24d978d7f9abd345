//! The controller of a digital cross-connect.
#![tactic(auto)]

use craft_server::{Status, dxc_run};
use dxc_console::{
    Printing, VERSION, held_streams, help_asked, only_look, tell_standby, tell_status, words_given,
};
use dxc_host::{HostClock, HostOpener, Refusal, TermLink, ThreadSpawner, Utc};
use dxc_outside::Sent;
use std::io;
use std::process::ExitCode;
use users_at_odds::user_at_odds;

fn main(rt: HostRuntime) -> ExitCode {
    let alloc = rt.alloc();
    // First of all, since each file that is opened takes the lowest number that is free.
    let held = held_streams(&rt, alloc);
    let mut words = Vec::new(alloc);
    let mut opener = HostOpener::new(rt, Vec::new(alloc));
    opener.is_version(VERSION);
    let mut no_stream = None;
    let status = if let Err(error) = &held {
        no_stream = Refusal::of(alloc, "/dev/null", error);
        Status::CannotOpen
    } else if words_given(&rt, &mut words).is_err() {
        Status::NoMemory
    } else if let Some(status) = help_asked(&mut Printing::new(&rt), &words) {
        status
    } else {
        if only_look(&words) {
            opener.only_look();
        }
        match TermLink::new(alloc, rt.reader(), io::writer(&rt), rt) {
            Ok((mut terminal, mut gate)) => {
                let status = dxc_run(
                    alloc,
                    &words,
                    &mut opener,
                    &mut terminal,
                    &mut HostClock::new(),
                    &mut gate,
                    &mut ThreadSpawner::new(rt, Vec::new(alloc)),
                    &rt,
                );
                match terminal.finish() {
                    Sent::Whole => status,
                    Sent::Cut => Status::Link,
                }
            }
            Err(_) => Status::NoMemory,
        }
    };
    let refusal = no_stream.as_ref().or(opener.refusal());
    let mut looking = HostOpener::new(rt, Vec::new(alloc));
    looking.only_look();
    let user = user_at_odds(alloc, &mut looking, &words, status);
    tell_status(&rt, status, &words, refusal, user);
    if let Some(copied) = opener.copied() {
        tell_standby(&rt, status, &Utc::now(), copied);
    }
    ExitCode::from(status.number())
}
