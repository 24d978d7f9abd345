ghost use Rattle.std.specs.Prelude.{[]};

use crate::meeting::Meeting;
use crate::row::Carried;
use dxc_outside::{Frame, Lines, Put};
use std::sync::Arc;
use std::thread::yield_now;
use worked_common::IDLE;

/// Frames are numbered from 0 to one less, again and again.
const PERIOD: u8 = 254;

/// The byte of the port in the frame of this number, which is never the idle one. An even frame and an odd one together tell any two of 2,000 ports apart.
pub fn byte_of(port: u16, frame: u8) -> u8 {
    let turned = if frame % 2 == 0 { 0 } else { port / 16 };
    ((port as u32 + turned as u32 + frame as u32) % IDLE as u32) as u8
}

/// One of the workers.
#[derive(Clone, Copy)]
pub struct Worker {
    pub number: u16,
    pub workers: u16,
    /// The slots of a module.
    pub slots: u16,
}

impl Worker {
    /// Whether the port's output is the worker's.
    pub fn has(self, port: u16) -> bool {
        self.slots != 0 && self.workers != 0 && port / self.slots % self.workers == self.number
    }
}

/// The number of the frame in hand, and how many come after it.
#[derive(Clone, Copy)]
struct Count {
    frame: u8,
    /// Known once all sessions are over.
    left: Option<u8>,
}

impl Count {
    // Goes on to the next frame; whether there is one. After the first frame at which all sessions are over, which is frame 0, comes
    // frame 1.
    fn goes_on(&mut self, is_over: bool) -> bool {
        match self.left {
            Some(0) => return false,
            Some(left) => {
                self.left = Some(left - 1);
                self.frame = 1;
            }
            None if is_over => {
                self.left = Some(1);
                self.frame = 0;
            }
            None => self.frame = self.frame.wrapping_add(1) % PERIOD,
        }
        true
    }
}

/// The lines of a worker. They give frame by frame until all sessions are over, and then frames 0 and 1; meanwhile they look whether
/// the connections that are known to stand are carried. Where they are dropped they leave what those last two carried to whoever
/// compares it.
pub struct WatchedLines {
    meeting: Arc<Meeting>,
    worker: Worker,
    /// Its number after the sessions.
    place: usize,
    known: Vec<Carried>,
    count: Count,
    last_frames: Vec<u8>,
    ended: bool,
    write_faults: u64,
}

impl WatchedLines {
    /// What the last frames carried comes after what `last_frames` holds.
    pub fn new(
        meeting: Arc<Meeting>,
        worker: Worker,
        place: usize,
        known: Vec<Carried>,
        last_frames: Vec<u8>,
    ) -> WatchedLines {
        WatchedLines {
            meeting,
            worker,
            place,
            known,
            count: Count {
                frame: 0,
                left: None,
            },
            last_frames,
            ended: false,
            write_faults: 0,
        }
    }

    // How many bytes of a frame come from elsewhere than from the input of a connection that stood meanwhile.
    fn astray(&self, frame: &[u8]) -> u64 {
        let mut astray = 0u64;
        for known in &self.known {
            if known.stood(&self.meeting)
                && self.worker.has(known.output)
                && frame.get(known.output as usize).copied()
                    != Some(byte_of(known.input, self.count.frame))
            {
                astray = astray.saturating_add(1);
            }
        }
        astray
    }
}

impl Lines for WatchedLines {
    ghost told = { ⊥ };

    ghost state = { λ l. record {
      left = [];
      written = [];
      ended = l.ended;
      read_faults = 0;
      write_faults = l.write_faults;
    } };

    fn read_frame(&mut self, into: &mut [u8]) -> Frame {
        yield_now();
        if !self.count.goes_on(self.meeting.is_over()) {
            self.ended = true;
            return Frame::End;
        }
        self.ended = false;
        for known in &mut self.known {
            known.look(&self.meeting);
        }
        fill(into, self.count.frame);
        Frame::Whole
    }

    fn write_frame(&mut self, from: &[u8]) -> Put {
        if self.count.left.is_some() && self.last_frames.extend_from_slice(from).is_err() {
            self.write_faults = self.write_faults.saturating_add(1);
            return Put::Failed;
        }
        self.meeting
            .note_frame(self.worker.number as usize, self.astray(from));
        Put::Took(from.len())
    }
}

// Fills the frame of this number.
fn fill(frame: &mut [u8], number: u8) {
    let mut port = 0u16;
    for byte in frame {
        *byte = byte_of(port, number);
        port = port.saturating_add(1);
    }
}

impl Drop for WatchedLines {
    fn drop(self) {
        let WatchedLines {
            meeting,
            worker: _,
            place,
            known: _,
            count: _,
            last_frames,
            ended: _,
            write_faults: _,
        } = self;
        meeting.note_left(place, last_frames);
    }
}
