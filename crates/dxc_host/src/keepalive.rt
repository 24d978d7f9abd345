//! What is asked of the system for a TCP stream beyond std's calls.
ghost use Rattle.libc.specs.Net.{SockOption};

use libc::net::{
    IPPROTO_TCP, SO_KEEPALIVE, SO_SNDBUF, SOL_SOCKET, TCP_KEEPCNT, TCP_KEEPIDLE, TCP_KEEPINTVL,
    TCP_USER_TIMEOUT,
};
use std::io;
use std::net::TcpStream;
use std::os::fd::AsRawFd;

/// After so many askings without an answer the stream is broken.
const ASKINGS: i32 = 3;

/// Who is at the other end of a stream, whose machine may be silent for so long.
#[derive(Clone, Copy, Drop)]
pub(crate) enum FarEnd {
    /// A technician: a minute and a half.
    Caller,
    /// The other controller of a pair, of whose silence both say within ten seconds: eight seconds.
    Peer,
}

impl FarEnd {
    /// Who sends nothing for so long is asked whether its machine is there.
    fn idle_seconds(self) -> i32 {
        match self {
            FarEnd::Caller => 60,
            FarEnd::Peer => 2,
        }
    }

    /// How long after an asking the next one comes.
    fn again_seconds(self) -> i32 {
        match self {
            FarEnd::Caller => 10,
            FarEnd::Peer => 2,
        }
    }

    /// Bytes that weren't acknowledged for so long break the stream too.
    fn unanswered_millis(self) -> i32 {
        match self {
            FarEnd::Caller => 90_000,
            FarEnd::Peer => 8_000,
        }
    }
}

/// Breaks the stream where the machine at its other end has been silent for so long, whether anything was sent to it or not (RFC 1122,
/// 4.2.3.6; RFC 5482).
pub(crate) fn watch(stream: &TcpStream, far: FarEnd) -> io::Result<()> {
    let socket = stream.as_raw_fd();
    set(socket, SOL_SOCKET, SO_KEEPALIVE, 1)?;
    set(socket, IPPROTO_TCP, TCP_KEEPIDLE, far.idle_seconds())?;
    set(socket, IPPROTO_TCP, TCP_KEEPINTVL, far.again_seconds())?;
    set(socket, IPPROTO_TCP, TCP_KEEPCNT, ASKINGS)?;
    set(
        socket,
        IPPROTO_TCP,
        TCP_USER_TIMEOUT,
        far.unanswered_millis(),
    )
}

/// So many bytes are on their way to a standby at most: then its silence is that of somebody who gets nothing, also where the way is slow, and a whole
/// journal is sent.
const ON_THE_WAY: i32 = 32_768;

/// Lets the stream hold little that isn't acknowledged yet.
pub(crate) fn hold_little(stream: &TcpStream) -> io::Result<()> {
    set(stream.as_raw_fd(), SOL_SOCKET, SO_SNDBUF, ON_THE_WAY)
}

/// Lets the system give up what isn't acknowledged yet in place of sending it again.
pub(crate) fn give_up(stream: &TcpStream) -> io::Result<()> {
    set(stream.as_raw_fd(), IPPROTO_TCP, TCP_USER_TIMEOUT, 1)
}

fn set(socket: i32, level: i32, option: i32, number: i32) -> io::Result<()>
    requires { SockOption level option }
{
    let mut value = [0; 16];
    value[..4].copy_from_slice(&number.to_ne_bytes());
    if unsafe { libc::net::setsockopt(socket, level, option, &value, 4) } < 0 {
        return Err(io::Error::from_raw_os_error(os::errno()));
    }
    Ok(())
}
