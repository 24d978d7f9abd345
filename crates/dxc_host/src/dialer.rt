//! Calls the machine of a standby.

use std::alloc::Global;
use std::io::{self, ErrorKind};
use std::net::{Net, SocketAddr, TcpListener, TcpStream, ToSocketAddrs};
use std::rt::Clock as SystemClock;
use std::thread;
use std::time::Duration;

/// While it is called again, so many seconds lie between two calls at least.
const REST_SECONDS: i64 = 2;

/// Where it was silent it may be stopped, and the system takes calls for it all the same: each costs a change the wait for its silence. So the rest
/// grows by this factor with each silence, ..
const SILENT_FACTOR: i64 = 5;

/// .. to so many seconds at most.
const LONGEST_REST_SECONDS: i64 = 300;

/// How long somebody waits for an answer who makes a change meanwhile.
const ANSWER_MILLIS: u64 = 200;

/// At a start a standby that isn't there is called so often, ..
const FIRST_CALLS: u32 = 5;

/// .. each of these may last so long, ..
const FIRST_ANSWER_MILLIS: u64 = 500;

/// .. and so long it is rested between two: a unit starts a standby again within two seconds.
const FIRST_REST_MILLIS: u64 = 600;

/// The addresses that a standby's name stands for.
#[derive(Drop)]
pub(crate) struct Dialer<T> {
    system: T,
    addresses: Vec<SocketAddr>,
    /// The second of the last call, or of its silence, since 1970.
    called: i64,
    /// How many seconds it is rested from then on.
    rest: i64,
}

impl<T: Net<Listener = TcpListener, Stream = TcpStream> + SystemClock + Drop> Dialer<T> {
    /// Of the port that the name has, or of the one after it. An error: the name has no address, or no such port.
    pub(crate) fn new(
        alloc: Global,
        system: T,
        name: &str,
        is_behind: bool,
    ) -> io::Result<Dialer<T>> {
        let mut addresses = Vec::new(alloc);
        for address in name.to_socket_addrs(&system)? {
            if is_behind {
                addresses.push(port_behind(address)?)?;
            } else {
                addresses.push(address)?;
            }
        }
        Ok(Dialer {
            system,
            addresses,
            called: 0,
            rest: REST_SECONDS,
        })
    }

    /// At a start: it is called some times, for five seconds at most.
    pub(crate) fn call_first(&mut self) -> io::Result<TcpStream> {
        let limit = Duration::from_millis(FIRST_ANSWER_MILLIS);
        for _ in 1..FIRST_CALLS {
            if let Ok(stream) = self.call(limit) {
                return Ok(stream);
            }
            thread::sleep(&self.system, Duration::from_millis(FIRST_REST_MILLIS));
        }
        self.call(limit)
    }

    /// The standby was silent: it is rested for longer before the next call.
    pub(crate) fn was_silent(&mut self) {
        self.called = libc::time(&mut 0);
        self.rest = self
            .rest
            .saturating_mul(SILENT_FACTOR)
            .min(LONGEST_REST_SECONDS);
    }

    /// The standby was heard.
    pub(crate) fn was_heard(&mut self) {
        self.rest = REST_SECONDS;
    }

    /// Calls again, where it was rested for long enough. None: nobody answers.
    pub(crate) fn call_again(&mut self) -> Option<TcpStream> {
        let now = libc::time(&mut 0);
        // A clock may also be set back.
        if now >= self.called && now.saturating_sub(self.called) < self.rest {
            return None;
        }
        self.call(Duration::from_millis(ANSWER_MILLIS)).ok()
    }

    // Whoever answers first in time, of all addresses.
    fn call(&mut self, limit: Duration) -> io::Result<TcpStream> {
        self.called = libc::time(&mut 0);
        let mut last = io::Error::new(ErrorKind::InvalidInput, "the name has no address");
        for at in &self.addresses {
            match TcpStream::connect_timeout(&self.system, at, limit) {
                Ok(stream) => return Ok(stream),
                Err(error) => last = error,
            }
        }
        Err(last)
    }
}

fn port_behind(at: SocketAddr) -> io::Result<SocketAddr> {
    let Some(port) = at.port().checked_add(1) else {
        return Err(io::Error::new(ErrorKind::InvalidInput, "there is no port behind it"));
    };
    let mut behind = at;
    behind.set_port(port);
    Ok(behind)
}
