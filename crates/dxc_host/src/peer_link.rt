ghost use Rattle.std.specs.Prelude.{false, ◌≡◌, ◌≢◌, length};
ghost use Rattle.dxc_outside.specs.Items.{FitsBuffer};
ghost use Rattle.dxc_host.specs.TcpLinks.{peer_state};

use crate::caller::Caller;
use crate::changes::Changes;
use crate::dialer::Dialer;
use crate::error_lines::ErrorLines;
use crate::keepalive::{self, FarEnd};
use crate::outbox::Outbox;
use crate::peer_watch::{CopyOf, PeerWatch};
use dxc_outside::{Got, Link, Lost, Put};
use std::alloc::Global;
use std::io::{self, ErrorKind, Read};
use std::net::{Net, TcpListener, TcpStream};
use std::os::fd::AsRawFd;
use std::rt::Clock as SystemClock;

/// A TCP link to a standby. Where it ends, or is hung up, standard error is told when and why, since the sessions go on without it. Once it was hung up a
/// read calls the standby again, and is Quiet where somebody answers: the link is over a new connection then. Where the other link to the same standby
/// has ended, this one has too. It tells nothing of its content.
#[derive(Drop)]
pub struct PeerLink<T> {
    alloc: Global,
    name: String,
    lines: ErrorLines,
    dialer: Dialer<T>,
    of: CopyOf,
    watch: PeerWatch,
    /// Which time of the standby its connection is of; 0: of none.
    time: u64,
    /// None while there is no connection.
    line: Option<Caller>,
    outbox: Outbox,
    /// Whether something came over the connection.
    is_heard: bool,
    ended: bool,
    hung_up: Option<Lost>,
    reads: u64,
    read_faults: u64,
    write_faults: u64,
}

impl<T: Net<Listener = TcpListener, Stream = TcpStream> + SystemClock + Copy + Drop> PeerLink<T> {
    /// Calls the standby of that name. It is a link also where nobody answers, of which standard error is told: a write on it fails.
    pub(crate) fn new(
        alloc: Global,
        system: T,
        name: &str,
        lines: ErrorLines,
    ) -> io::Result<PeerLink<T>> {
        let watch = PeerWatch::new(alloc, lines.shared())?;
        if let Some(hall) = lines.hall() {
            hall.lose_standby();
        }
        let mut link = PeerLink::uncalled(alloc, system, name, CopyOf::Journal, lines, watch)?;
        match link.dialer.call_first() {
            Ok(stream) => link.take_up(stream)?,
            Err(error) => link.tell_unanswered(&error),
        }
        Ok(link)
    }

    /// Calls the same standby at the port after that name's, if it is there: it has both copies, or is lost.
    pub(crate) fn of_users(
        alloc: Global,
        system: T,
        name: &str,
        lines: ErrorLines,
        watch: &PeerWatch,
    ) -> io::Result<PeerLink<T>> {
        let watch = watch.shared()?;
        let mut link = PeerLink::uncalled(alloc, system, name, CopyOf::Users, lines, watch)?;
        if let Some(time) = link.watch.journal_time() {
            match link.dialer.call_first() {
                Ok(stream) => link.take_up(stream)?,
                Err(error) => {
                    link.tell_unanswered(&error);
                    link.watch.tell(time, Lost::Link);
                }
            }
        }
        Ok(link)
    }

    fn uncalled(
        alloc: Global,
        system: T,
        name: &str,
        of: CopyOf,
        lines: ErrorLines,
        watch: PeerWatch,
    ) -> io::Result<PeerLink<T>> {
        let is_behind = match of {
            CopyOf::Journal => false,
            CopyOf::Users => true,
        };
        Ok(PeerLink {
            alloc,
            name: name.to_string(alloc)?,
            dialer: Dialer::new(alloc, system, name, is_behind)?,
            of,
            watch,
            time: 0,
            lines,
            line: None,
            // No gate is asked for what it is sent.
            outbox: Outbox::new(alloc, Changes::new(alloc)?)?,
            is_heard: false,
            ended: false,
            hung_up: None,
            reads: 0,
            read_faults: 0,
            write_faults: 0,
        })
    }

    /// What those see of its end who wait for callers; none where memory is wanting.
    pub(crate) fn watch(&self) -> Option<PeerWatch> {
        self.watch.shared().ok()
    }

    // Goes over a new connection.
    fn take_up(&mut self, stream: TcpStream) -> io::Result<()>
        ensures reads { self.new.reads ≡ self.old.reads }
        ensures read_faults { self.new.read_faults ≡ self.old.read_faults }
        ensures write_faults { self.new.write_faults ≡ self.old.write_faults }
        ensures hung_up { self.new.hung_up ≡ self.old.hung_up }
    {
        keepalive::hold_little(&stream)?;
        let number = stream.as_raw_fd();
        let second = stream.try_clone().ok();
        self.line = Some(Caller::new(stream, None, FarEnd::Peer)?);
        self.outbox = Outbox::new(self.alloc, Changes::new(self.alloc)?)?;
        self.is_heard = false;
        self.time = self.watch.begin(self.of, number, second);
        self.tell_called();
        Ok(())
    }

    // Quiet: somebody answers, and the link goes over a new connection.
    fn call_again(&mut self) -> Got
        ensures fits { FitsBuffer result 0 }
        ensures reads { self.new.reads ≡ self.old.reads }
        ensures read_faults { self.new.read_faults ≡ self.old.read_faults }
        ensures write_faults { self.new.write_faults ≡ self.old.write_faults }
        ensures hung_up { self.new.hung_up ≡ self.old.hung_up }
    {
        match self.dialer.call_again() {
            Some(stream) => match self.take_up(stream) {
                Ok(()) => Got::Quiet,
                Err(_) => Got::End,
            },
            None => Got::End,
        }
    }

    // What a read gives.
    fn hear(&mut self, into: &mut [u8]) -> Got
        ensures fits { FitsBuffer result (length into.new) }
        ensures reads { self.new.reads ≡ self.old.reads }
        ensures read_faults { self.new.read_faults ≡ self.old.read_faults }
        ensures write_faults { self.new.write_faults ≡ self.old.write_faults }
        ensures hung_up { self.new.hung_up ≡ self.old.hung_up }
    {
        let Some(line) = &mut self.line else {
            return self.call_again();
        };
        if self.watch.is_over(self.time) {
            return Got::End;
        }
        if !self.outbox.empty(line) {
            return Got::Failed;
        }
        match line.read(into) {
            Ok(0) => Got::End,
            Ok(count) => {
                self.tell_joined();
                Got::Bytes(count)
            }
            Err(error) => match error.kind() {
                ErrorKind::Interrupted | ErrorKind::WouldBlock => Got::Quiet,
                _ => Got::Failed,
            },
        }
    }

    // The first that a standby sends is that it has the copy.
    fn tell_joined(&mut self)
        ensures { self.new ≡ record self.old
            { is_heard = self.new.is_heard; dialer = self.new.dialer } }
    {
        if !self.is_heard {
            self.is_heard = true;
            self.dialer.was_heard();
            if let Some(hall) = self.lines.hall() {
                hall.join_standby(self.of);
            }
            self.lines.tell(&match self.of {
                CopyOf::Journal => "standby joined",
                CopyOf::Users => "standby joined, for the users",
            });
        }
    }

    fn tell_called(&self) {
        let name = self.name.as_str();
        let what = match self.of {
            CopyOf::Journal => "the journal is",
            CopyOf::Users => "the users are",
        };
        if let Ok(what) = format!(in self.alloc; "standby at {name}: called, {what} copied to it") {
            self.lines.tell(&what.as_str());
        }
    }

    fn tell_unanswered(&self, error: &io::Error) {
        let name = self.name.as_str();
        if let Ok(what) = format!(in self.alloc;
            "standby at {name}: {error}: serving alone, and calling again"
        ) {
            self.lines.tell(&what.as_str());
        }
    }
}

impl<T: Net<Listener = TcpListener, Stream = TcpStream> + SystemClock + Copy + Drop> Link
    for PeerLink<T> {
    ghost told = { ⊥ };

    ghost state = { λ p. peer_state p };

    ghost begun = { λ _. Unit {0} };

    ghost hung_up = { λ p. p.hung_up };

    fn read(&mut self, into: &mut [u8]) -> Got {
        self.reads = self.reads.saturating_add(1);
        let got = self.hear(into);
        self.ended = false;
        match got {
            Got::End => self.ended = true,
            Got::Failed => self.read_faults = self.read_faults.saturating_add(1),
            Got::Bytes(_) | Got::Quiet => {}
        }
        got
    }

    fn write(&mut self, from: &[u8]) -> Put {
        let may_wait = self.is_heard;
        // A change that meets the loss with its first write joins with its sync who stands by anew.
        let is_over = self.watch.is_over(self.time);
        let taken = match &mut self.line {
            Some(line) => {
                if is_over {
                    None
                } else {
                    self.outbox.write(line, from, may_wait)
                }
            }
            None => None,
        };
        match taken {
            Some(count) => Put::Took(count),
            None => {
                self.write_faults = self.write_faults.saturating_add(1);
                Put::Failed
            }
        }
    }

    /// What the standby hasn't got yet it won't get any more, as far as that lies with this end.
    fn hang_up(&mut self, why: Lost) {
        // First: whoever waits for callers meets the end that is made here.
        self.watch.tell(self.time, why);
        if let Some(line) = &self.line {
            line.give_up();
        }
        self.line = None;
        self.hung_up = Some(why);
        if let Lost::Silent = why {
            self.dialer.was_silent();
        }
    }
}
