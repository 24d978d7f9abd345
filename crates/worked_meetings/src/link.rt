ghost use Rattle.std.specs.Prelude.{[], false};
ghost use base.Stored.{gnil};

use crate::cue::Script;
use dxc_outside::{Got, Link, Lost, Put};

/// The link of a session: it gives what its script says, and keeps what is written. Where its session is over it is dropped, and
/// leaves what was written to whoever compares it.
pub struct CueLink {
    script: Script,
    /// The session's number in its row.
    number: usize,
    /// The point that is come to where the session is over.
    over: Option<u64>,
    output: Vec<u8>,
    ended: bool,
    /// Why it was hung up.
    hung_up: Option<Lost>,
    reads: u64,
    read_faults: u64,
    write_faults: u64,
}

impl CueLink {
    /// What is written comes after what `output` holds.
    pub fn new(script: Script, number: usize, over: Option<u64>, output: Vec<u8>) -> CueLink {
        CueLink {
            script,
            number,
            over,
            output,
            ended: false,
            hung_up: None,
            reads: 0,
            read_faults: 0,
            write_faults: 0,
        }
    }
}

impl Link for CueLink {
    ghost told = { ⊥ };

    ghost state = { λ c. record {
      left = [];
      written = [];
      ended = c.ended;
      reads = c.reads;
      read_faults = c.read_faults;
      write_faults = c.write_faults;
      sound = false;
      lasting = gnil;
    } };

    ghost begun = { λ _. Unit {0} };

    ghost hung_up = { λ c. c.hung_up };

    fn read(&mut self, into: &mut [u8]) -> Got {
        self.reads = self.reads.saturating_add(1);
        let got = self.script.read(into);
        self.ended = matches!(got, Got::End);
        if let Got::Failed = got {
            self.read_faults = self.read_faults.saturating_add(1);
        }
        got
    }

    fn write(&mut self, from: &[u8]) -> Put {
        if self.output.extend_from_slice(from).is_err() {
            self.write_faults = self.write_faults.saturating_add(1);
            return Put::Failed;
        }
        Put::Took(from.len())
    }

    fn hang_up(&mut self, why: Lost) {
        self.hung_up = Some(why);
    }
}

impl Drop for CueLink {
    fn drop(self) {
        let CueLink {
            script,
            number,
            over,
            output,
            ended: _,
            hung_up: _,
            reads: _,
            read_faults: _,
            write_faults: _,
        } = self;
        script.meeting.note_left(number, output);
        if let Some(point) = over {
            script.meeting.reach(point as usize);
        }
    }
}
