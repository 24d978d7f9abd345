use crate::hall::Hall;
use crate::told::Utc;
use dxc_notes::{Standing, Word};
use libc::net::POLLOUT;
use libc::types::pollfd;
use std::alloc::Global;
use std::fmt::Display;
use std::sync::Arc;
use std::sync::atomic::Ordering;

/// Standard error's number.
const ERRORS: i32 = 2;

/// Standard error, which is told what happens while the program serves, a line each with the moment. A line that isn't taken at once is
/// dropped and counted, and how many were is told where one is taken again: nobody waits for whoever reads them. All who hold them see what stands
/// of the program.
#[derive(Drop)]
pub(crate) struct ErrorLines {
    alloc: Global,
    /// None: there was no memory for it, and then nothing is counted or known.
    hall: Option<Arc<Hall>>,
}

impl ErrorLines {
    /// Of a program of this version.
    pub(crate) fn new(alloc: Global, version: Option<Word>) -> ErrorLines {
        let hall = match Hall::new(alloc, version) {
            Ok(hall) => Arc::new(alloc, hall).ok(),
            Err(_) => None,
        };
        ErrorLines { alloc, hall }
    }

    /// What all who hold them see.
    pub(crate) fn hall(&self) -> Option<&Arc<Hall>> {
        self.hall.as_ref()
    }

    /// What stands of the program.
    pub(crate) fn standing(&self) -> Standing {
        match self.hall() {
            Some(hall) => hall.standing(),
            None => Standing::unknown(),
        }
    }

    /// The same ones, for another holder.
    pub(crate) fn shared(&self) -> ErrorLines {
        let hall = match &self.hall {
            Some(hall) => Arc::try_clone(hall).ok(),
            None => None,
        };
        ErrorLines {
            alloc: self.alloc,
            hall,
        }
    }

    /// Tells what happened, in a hundred bytes or so: a pipe that has room takes what all threads tell at once.
    pub(crate) fn tell<T: Display>(&self, what: &T) {
        if !self.told_dropped() || !self.wrote(what) {
            self.drop_more(1);
        }
    }

    /// The same of a place where callers come in.
    pub(crate) fn tell_at<T: Display>(&self, place: u64, what: &T) {
        match format!(in self.alloc; "place {place}: {what}") {
            Ok(line) => self.tell(&line.as_str()),
            Err(_) => self.drop_more(1),
        }
    }

    /// The same of a frame worker, whose frames go on no more.
    pub(crate) fn tell_worker<T: Display>(&self, worker: u16, why: &T) {
        match format!(in self.alloc; "worker {worker}: no more frames, {why}") {
            Ok(line) => self.tell(&line.as_str()),
            Err(_) => self.drop_more(1),
        }
    }

    // False: how many were dropped can't be told yet.
    fn told_dropped(&self) -> bool {
        let count = self.take_dropped();
        if count == 0 {
            return true;
        }
        let is_told = match format!(in self.alloc; "{count} lines before this one were lost") {
            Ok(line) => self.wrote(&line.as_str()),
            Err(_) => false,
        };
        if !is_told {
            self.drop_more(count);
        }
        is_told
    }

    fn take_dropped(&self) -> u64 {
        match self.hall() {
            Some(hall) => hall.dropped.swap(0, Ordering::SeqCst),
            None => 0,
        }
    }

    fn drop_more(&self, count: u64) {
        if let Some(hall) = self.hall() {
            hall.dropped.fetch_add(count, Ordering::SeqCst);
        }
    }

    fn wrote<T: Display>(&self, what: &T) -> bool {
        match format!(in self.alloc; "dxc: {}: {what}\n", Utc::now()) {
            Ok(line) => has_room() && was_taken(line.as_bytes()),
            Err(_) => false,
        }
    }
}

// A pipe that has room has it for 4096 bytes (pipe(7)).
fn has_room() -> bool {
    let mut asked = [pollfd {
        fd: ERRORS,
        events: POLLOUT,
        revents: 0,
    }];
    libc::net::poll(&mut asked, 0) > 0
}

// Where whoever read a pipe is gone, the program goes on: it begins with SIGPIPE ignored, as Rust's programs do.
fn was_taken(line: &[u8]) -> bool {
    libc::write(ERRORS, line) == line.len() as isize
}
