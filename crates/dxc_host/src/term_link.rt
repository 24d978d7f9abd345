ghost use Rattle.std.specs.Prelude.{[], false, ◌≡◌, IfOk};
ghost use base.Stored.{gnil};

use crate::HostGate;
use crate::changes::Changes;
use crate::outbox::Outbox;
use crate::patient::{Patient, rest};
use dxc_outside::{Got, Link, Lost, Put, Sent};
use std::alloc::{AllocError, Global};
use std::io::{ErrorKind, Read, Write};
use std::rt::Clock as SystemClock;

/// A link over a reader and a writer, as standard input and output. It tells nothing of its content. A read that was
/// interrupted, that timed out, or, after a rest, that found nothing is a Quiet; a write that takes 0 bytes counts as failed,
/// and so does one that found no room for ten seconds. From the first read on what is written is collected. It goes out before each
/// read, where it has no room, with what is written after a change that the gate let to a journal, and by `finish`, without which
/// the link can't be let go.
pub struct TermLink<R: Read, W: Write, T: SystemClock> {
    input: R,
    output: Patient<W, T>,
    outbox: Outbox,
    ended: bool,
    /// Why it was hung up.
    hung_up: Option<Lost>,
    reads: u64,
    read_faults: u64,
    write_faults: u64,
}

impl<R: Read, W: Write, T: SystemClock> TermLink<R, W, T> {
    /// A link, and the gate for what is done over it.
    pub fn new(
        alloc: Global,
        input: R,
        output: W,
        system: T,
    ) -> Result<(TermLink<R, W, T>, HostGate), AllocError>
    where
        R: Drop,
        W: Drop,
        T: Drop,
        ensures ended { IfOk result (λ made. made.0.ended ≡ false) }
        ensures reads { IfOk result (λ made. made.0.reads ≡ 0) }
        ensures read_faults { IfOk result (λ made. made.0.read_faults ≡ 0) }
        ensures write_faults { IfOk result (λ made. made.0.write_faults ≡ 0) }
    {
        let changes = Changes::new(alloc)?;
        let gate = HostGate::new(Some(changes.shared()?));
        let outbox = Outbox::new(alloc, changes)?;
        let link = TermLink {
            input,
            output: Patient { output, system },
            outbox,
            ended: false,
            hung_up: None,
            reads: 0,
            read_faults: 0,
            write_faults: 0,
        };
        Ok((link, gate))
    }

    /// Writes out what was collected. `Cut` where that fails.
    pub fn finish(self) -> Sent
    where
        R: Drop,
        W: Drop,
        T: Drop,
    {
        let TermLink {
            input: _,
            mut output,
            mut outbox,
            ended: _,
            hung_up: _,
            reads: _,
            read_faults: _,
            write_faults: _,
        } = self;
        if outbox.empty(&mut output) {
            Sent::Whole
        } else {
            Sent::Cut
        }
    }
}

impl<R: Read, W: Write, T: SystemClock> Link for TermLink<R, W, T> {
    ghost told = { ⊥ };

    ghost state = { λ t. record {
      left = [];
      written = [];
      ended = t.ended;
      reads = t.reads;
      read_faults = t.read_faults;
      write_faults = t.write_faults;
      sound = false;
      lasting = gnil;
    } };

    ghost begun = { λ _. Unit {0} };

    ghost hung_up = { λ t. t.hung_up };

    fn read(&mut self, into: &mut [u8]) -> Got {
        self.reads = self.reads.saturating_add(1);
        self.ended = false;
        if !self.outbox.empty(&mut self.output) {
            self.read_faults = self.read_faults.saturating_add(1);
            return Got::Failed;
        }
        match self.input.read(into) {
            Ok(0) => {
                self.ended = true;
                Got::End
            }
            Ok(count) => Got::Bytes(count),
            Err(e) => match e.kind() {
                ErrorKind::WouldBlock => {
                    rest(&self.output.system);
                    Got::Quiet
                }
                ErrorKind::Interrupted | ErrorKind::TimedOut => Got::Quiet,
                _ => {
                    self.read_faults = self.read_faults.saturating_add(1);
                    Got::Failed
                }
            },
        }
    }

    fn write(&mut self, from: &[u8]) -> Put {
        let may_wait = self.reads > 0;
        match self.outbox.write(&mut self.output, from, may_wait) {
            Some(count) => Put::Took(count),
            None => {
                self.write_faults = self.write_faults.saturating_add(1);
                Put::Failed
            }
        }
    }

    /// A terminal has no other end that could learn of it: it is only kept.
    fn hang_up(&mut self, why: Lost) {
        self.hung_up = Some(why);
    }
}
