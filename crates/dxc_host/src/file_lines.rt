ghost use Rattle.std.specs.Prelude.{[], ◌≡◌, false, IfOk};

use crate::error_lines::ErrorLines;
use crate::held::Held;
use dxc_outside::{Frame, Lines, Put};
use std::alloc::{AllocError, Global};
use std::fs::File;
use std::io;
use std::os::unix::fs::FileExt;

/// So many bytes have room on either way.
const ROOM: usize = 1 << 16;

/// Lines over two files of the operating system. They tell nothing of their content. A read takes what the input gives at once, up to 64 KiB,
/// and no frame may be longer. Frames that are written are held until the input is to be read again, or until they have no room; so who
/// trickles frames into the input sees what comes of each at once. Output is written at its place: a frame that failed is whole at the
/// next try. The output keeps what it held before until the first frame is to be read. Where frames were carried, standard error is told as the lines
/// are dropped.
pub struct FileLines {
    input: File,
    ahead: Held,
    output: Output,
    /// Of the worker whose frames they are.
    worker: u16,
    lines: ErrorLines,
    /// The last read or write that failed.
    fault: Option<io::Error>,
    ended: bool,
    read_faults: u64,
    write_faults: u64,
}

impl FileLines {
    /// Lines of the worker from the one file into the other, which is to be open for writing.
    pub(crate) fn new(
        alloc: Global,
        input: File,
        output: File,
        worker: u16,
        lines: ErrorLines,
    ) -> Result<FileLines, AllocError>
        ensures ended { IfOk result (λ l. l.ended ≡ false) }
        ensures read_faults { IfOk result (λ l. l.read_faults ≡ 0) }
        ensures write_faults { IfOk result (λ l. l.write_faults ≡ 0) }
    {
        let ahead = Held::new(alloc, ROOM)?;
        let held = Held::new(alloc, ROOM)?;
        Ok(FileLines {
            input,
            ahead,
            output: Output {
                file: output,
                held,
                end: 0,
                is_begun: false,
            },
            worker,
            lines,
            fault: None,
            ended: false,
            read_faults: 0,
            write_faults: 0,
        })
    }
}

// Reads on until so many bytes are ahead, or the file has no more; how many are ahead.
fn fetch(file: &mut File, ahead: &mut Held, count: usize) -> io::Result<usize>
    ensures { IfOk result (λ n. n ≡ ahead.new) }
{
    while ahead.count() < count {
        if ahead.read_more(file)? == 0 {
            return Ok(ahead.count());
        }
    }
    Ok(ahead.count())
}

/// The file of the output, the frames that it hasn't got yet, and the place after those that it has.
#[derive(Drop)]
struct Output {
    file: File,
    held: Held,
    end: u64,
    /// What it held before was dropped.
    is_begun: bool,
}

impl Output {
    // Drops what a file of a disk held before, once. Whoever opens lines may still fail to open what else it wants.
    fn begin(&mut self) -> io::Result<()> {
        if self.is_begun {
            return Ok(());
        }
        if self.file.metadata()?.is_file() {
            self.file.set_len(0)?;
        }
        self.is_begun = true;
        Ok(())
    }

    // Holds a frame that may wait and has room. Another one is written, after what is held.
    fn write(&mut self, frame: &[u8], may_wait: bool) -> io::Result<()> {
        self.begin()?;
        if may_wait && self.held.put(frame) {
            return Ok(());
        }
        self.file.write_all_at(self.held.bytes(), self.end)?;
        self.end = self.end.saturating_add(self.held.count() as u64);
        self.held.clear();
        self.file.write_all_at(frame, self.end)?;
        self.end = self.end.saturating_add(frame.len() as u64);
        Ok(())
    }
}

impl Drop for FileLines {
    fn drop(self) {
        let FileLines {
            input: _,
            ahead: _,
            output,
            worker,
            lines,
            fault,
            ended,
            read_faults: _,
            write_faults: _,
        } = self;
        if output.is_begun {
            tell_end(&lines, worker, ended, fault.as_ref());
        }
    }
}

// Why the frames of a worker go on no more.
fn tell_end(lines: &ErrorLines, worker: u16, ended: bool, fault: Option<&io::Error>) {
    match fault {
        Some(error) => lines.tell_worker(worker, error),
        None if ended => lines.tell_worker(worker, &"its input ended"),
        None => lines.tell_worker(worker, &"its input ended within a frame"),
    }
}

impl Lines for FileLines {
    ghost told = { ⊥ };

    ghost state = { λ f. record {
      left = [];
      written = [];
      ended = f.ended;
      read_faults = f.read_faults;
      write_faults = f.write_faults;
    } };

    fn read_frame(&mut self, into: &mut [u8]) -> Frame {
        self.ended = false;
        // Where that fails, so does the first write.
        let _ = self.output.begin();
        match fetch(&mut self.input, &mut self.ahead, into.len()) {
            Ok(0) => {
                self.ended = true;
                Frame::End
            }
            Ok(count) if count >= into.len() => {
                self.ahead.take(into);
                Frame::Whole
            }
            read => {
                self.fault = read.err();
                self.read_faults = self.read_faults.saturating_add(1);
                Frame::Failed
            }
        }
    }

    fn write_frame(&mut self, from: &[u8]) -> Put {
        // A whole frame ahead: the input isn't read before the next write.
        let may_wait = self.ahead.count() >= from.len();
        if let Err(error) = self.output.write(from, may_wait) {
            self.fault = Some(error);
            self.write_faults = self.write_faults.saturating_add(1);
            return Put::Failed;
        }
        Put::Took(from.len())
    }
}
