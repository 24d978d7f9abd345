ghost use Rattle.std.specs.Prelude.{◌<◌, ◌≤◌, length};
ghost use Rattle.dxc_outside.specs.Items.{FitsBuffer};

use crate::meeting::Meeting;
use dxc_outside::Got;
use std::sync::Arc;

/// What a session's link does when the bytes in front were given.
#[derive(Clone, Copy)]
pub enum Cue {
    /// It goes on with a piece of its own.
    Next,
    /// Nothing comes for a time.
    Quiet,
    /// The session has come to this point.
    Reach(usize),
    /// What follows comes when this point was come to.
    Await(usize),
    /// What follows comes when each worker has carried a frame that began after what was before.
    Frames,
}

/// What comes from a session's caller.
#[derive(Drop)]
pub struct Script {
    pub rt: HostRuntime,
    pub meeting: Arc<Meeting>,
    pub input: Vec<u8>,
    /// How many bytes stand in front of each cue.
    pub cues: Vec<(usize, Cue)>,
    /// How many of the cues were taken, and how many bytes given.
    pub taken: usize,
    pub given: usize,
}

impl Script {
    /// What comes next. It waits where a cue says so; `Failed` where it waited in vain.
    pub fn read(&mut self, into: &mut [u8]) -> Got
        requires { 0 < length into.old }
        ensures { FitsBuffer result (length into.new) }
    {
        for _ in 0..self.cues.len() {
            let Some((front, cue)) = self.cues.get(self.taken).copied() else {
                break;
            };
            let count = self.give(front, into);
            if count != 0 {
                return Got::Bytes(count);
            }
            self.taken = self.taken.saturating_add(1);
            if let Cue::Quiet = cue {
                return Got::Quiet;
            }
            if !self.does(cue) {
                return Got::Failed;
            }
        }
        Got::End
    }

    // Does what a cue says; false where it waited in vain.
    fn does(&self, cue: Cue) -> bool {
        match cue {
            Cue::Reach(point) => self.meeting.reach(point),
            Cue::Await(point) => return self.meeting.wait_past(&self.rt, point, 0),
            Cue::Frames => return self.meeting.wait_for_frames(&self.rt),
            Cue::Next | Cue::Quiet => {}
        }
        true
    }

    // Gives of the bytes up to that place what fits; how many those were.
    fn give(&mut self, front: usize, into: &mut [u8]) -> usize
        ensures { result ≤ length into.new }
    {
        let left = self.input.get(self.given..front).unwrap_or(&[]);
        let count = left.len().min(into.len());
        into[..count].copy_from_slice(&left[..count]);
        self.given = self.given.saturating_add(count);
        count
    }
}
