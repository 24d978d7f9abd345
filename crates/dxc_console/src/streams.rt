ghost use Rattle.dxc_console.specs.Streams.{HoldsAll};

use std::alloc::Global;
use std::fs::File;
use std::io;
use std::os::fd::AsRawFd;
use std::rt::Files;
use std::snapshot::Snapshot;

// The standard streams, which have the numbers 0, 1 and 2.
const STREAMS: usize = 3;

const LAST: i32 = 2;

/// Handles of the null device in the place of standard streams. There is nothing to be read from them, and they can't be written to. The streams
/// stay closed to others as long as these are kept.
#[derive(Drop)]
pub struct Held {
    streams: Vec<File>,
    // What was opened after them, and closed again.
    beyond: Snapshot<Option<File>>,
    ghost all: { HoldsAll streams.items beyond.value },
}

/// Such a handle in the place of each standard stream that was closed when the program began, so that no file of its own comes to
/// stand there.
pub fn held_streams<R: Files<File = File>>(files: &R, alloc: Global) -> io::Result<Held> {
    let mut streams = Vec::new(alloc);
    for _ in 0..STREAMS {
        let null = File::open(files, "/dev/null")?;
        if null.as_raw_fd() > LAST {
            return Ok(Held {
                streams,
                beyond: Snapshot::of(&Some(null)),
            });
        }
        streams.push(null)?;
    }
    Ok(Held {
        streams,
        beyond: Snapshot::of(&None),
    })
}
