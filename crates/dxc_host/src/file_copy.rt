ghost use Rattle.std.specs.Prelude.{◌≡◌, OnOk, length, take, drop};

use dxc_disk::DiskFault;
use std::alloc::Global;
use std::fs::{self, File};
use std::io::{self, ErrorKind, Read};
use std::path::Path;
use std::rt::Files;

/// The most bytes that a journal has.
const MOST: u64 = 4_194_337;

/// A copy in memory of what a file held at a moment. Nothing that is done to it comes to the file.
#[derive(Drop)]
pub(crate) struct FileCopy {
    bytes: Vec<u8>,
}

impl FileCopy {
    /// Of the file of that path, as far as a journal may have bytes; where it isn't there in its folder, of none. It asks for no lock: what
    /// another program appends meanwhile is in the copy or isn't.
    pub(crate) fn open<R: Files<File = File>>(
        alloc: Global,
        files: &R,
        path: &str,
    ) -> io::Result<FileCopy> {
        let mut bytes = Vec::new(alloc);
        match File::open(files, path) {
            Ok(file) => {
                file.take(MOST).read_to_end(&mut bytes)?;
            }
            Err(error) if error.kind() == ErrorKind::NotFound => {
                fs::metadata(files, folder_of(path))?;
            }
            Err(error) => return Err(error),
        }
        Ok(FileCopy { bytes })
    }

    pub(crate) fn length(&self) -> u64
        ensures { result ≡ length self.now.bytes.items }
    {
        self.bytes.len() as u64
    }

    pub(crate) fn read(&self, at: u64, into: &mut [u8]) -> Result<(), DiskFault>
        ensures { OnOk result (into.new ≡ take (length into.old) (drop at self.now.bytes.items)) }
    {
        let held = self.bytes.get(at as usize..).ok_or(DiskFault)?;
        let part = held.get(..into.len()).ok_or(DiskFault)?;
        into.copy_from_slice(part);
        Ok(())
    }

    /// Writes over what is there, and past the end.
    #[inline(never)]
    pub(crate) fn write_at(&mut self, at: u64, from: &[u8]) -> Result<(), DiskFault> {
        let at = at as usize;
        let end = at.checked_add(from.len()).ok_or(DiskFault)?;
        if self.bytes.len() < end && self.bytes.resize(end, 0).is_err() {
            return Err(DiskFault);
        }
        self.bytes[at..end].copy_from_slice(from);
        Ok(())
    }
}

// The folder in which the file of that path lies.
pub(crate) fn folder_of(path: &str) -> Path<'_> {
    match Path::new(path).parent() {
        Some(folder) if !folder.as_os_str().is_empty() => folder,
        _ => Path::new("."),
    }
}
