ghost use Rattle.std.specs.Prelude.{false, ◌≡◌, IfOk};
ghost use Rattle.dxc_host.specs.TcpLinks.{tcp_state};

use crate::caller::Caller;
use crate::changes::Changes;
use crate::entrance::Seat;
use crate::keepalive::FarEnd;
use crate::last_sync::LastSync;
use crate::outbox::Outbox;
use dxc_outside::{Got, Link, Lost, Put};
use std::alloc::Global;
use std::io::{self, ErrorKind, Read};
use std::net::TcpStream;

/// A link over a TCP stream. It tells nothing of its content. From the first read on what is written is collected. It goes out
/// before each read, where it has no room, with what is written after a change that a gate let to a journal, and where the link is
/// dropped.
pub struct TcpLink {
    caller: Caller,
    outbox: Outbox,
    ended: bool,
    /// Why it was hung up.
    hung_up: Option<Lost>,
    reads: u64,
    read_faults: u64,
    write_faults: u64,
}

impl TcpLink {
    /// A link over the stream, whose calls time out from now on, with the seat of one that came in.
    pub(crate) fn new(
        alloc: Global,
        stream: TcpStream,
        seat: Option<Seat>,
        far: FarEnd,
        changes: Changes,
    ) -> io::Result<TcpLink>
        ensures ended { IfOk result (λ t. t.ended ≡ false) }
        ensures reads { IfOk result (λ t. t.reads ≡ 0) }
        ensures read_faults { IfOk result (λ t. t.read_faults ≡ 0) }
        ensures write_faults { IfOk result (λ t. t.write_faults ≡ 0) }
    {
        let caller = Caller::new(stream, seat, far)?;
        let outbox = Outbox::new(alloc, changes)?;
        Ok(TcpLink {
            caller,
            outbox,
            ended: false,
            hung_up: None,
            reads: 0,
            read_faults: 0,
            write_faults: 0,
        })
    }
}

impl TcpLink {
    /// Keeps there from here on when nothing more was to be read.
    pub(crate) fn keep_waits(&mut self, last_sync: LastSync)
        ensures { tcp_state self.new ≡ tcp_state self.old }
    {
        self.caller.keep_waits(last_sync);
    }
}

impl Drop for TcpLink {
    // Nobody is left who could be told of a fault.
    fn drop(self) {
        let TcpLink {
            mut caller,
            mut outbox,
            ended: _,
            hung_up: _,
            reads: _,
            read_faults: _,
            write_faults: _,
        } = self;
        let _ = outbox.empty(&mut caller);
    }
}

impl Link for TcpLink {
    ghost told = { ⊥ };

    ghost state = { tcp_state };

    ghost begun = { λ _. Unit {0} };

    ghost hung_up = { λ t. t.hung_up };

    fn read(&mut self, into: &mut [u8]) -> Got {
        self.reads = self.reads.saturating_add(1);
        self.ended = false;
        if !self.outbox.empty(&mut self.caller) {
            self.read_faults = self.read_faults.saturating_add(1);
            return Got::Failed;
        }
        match self.caller.read(into) {
            Ok(0) => {
                self.ended = true;
                Got::End
            }
            Ok(count) => Got::Bytes(count),
            Err(error) => match error.kind() {
                ErrorKind::Interrupted | ErrorKind::WouldBlock => Got::Quiet,
                _ => {
                    self.read_faults = self.read_faults.saturating_add(1);
                    Got::Failed
                }
            },
        }
    }

    fn write(&mut self, from: &[u8]) -> Put {
        let may_wait = self.reads > 0;
        match self.outbox.write(&mut self.caller, from, may_wait) {
            Some(count) => Put::Took(count),
            None => {
                self.write_faults = self.write_faults.saturating_add(1);
                Put::Failed
            }
        }
    }

    /// What was collected isn't written out any more.
    fn hang_up(&mut self, why: Lost) {
        self.caller.hang_up();
        self.hung_up = Some(why);
    }
}
