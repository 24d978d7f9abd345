use crate::error_lines::ErrorLines;
use crate::file_copy::folder_of;
use crate::last_sync::LastSync;
use dxc_disk::{Disk, DiskFault, FileDisk};
use std::alloc::Global;
use std::fs::{self, File};
use std::io::{self, ErrorKind};
use std::rt::Files;

/// What the name of a copy stands for until the copy is whole. No mode takes it for a journal.
const JOINING: [u8; 8] = *b"joining\n";

/// The ending of the name beside it.
const BESIDE: &str = ".joining";

/// The file of a copy, which is made beside its name and gets it with its first sync, so that the name never stands for a part.
#[derive(Drop)]
pub(crate) struct StagedFile {
    lines: ErrorLines,
    staged: FileDisk,
    beside: String,
    name: String,
    folder: File,
    /// The file that has the name until then. It is held, so that nobody else takes it.
    place: FileDisk,
    is_named: bool,
    last_sync: LastSync,
}

impl StagedFile {
    /// Of the name whose file is in place. What an earlier copy left beside it is taken away.
    pub(crate) fn new<R: Files<File = File>>(
        alloc: Global,
        files: &R,
        name: &str,
        place: FileDisk,
        last_sync: LastSync,
        lines: ErrorLines,
    ) -> io::Result<StagedFile> {
        let mut beside = String::new(alloc);
        beside.push_str(name)?;
        beside.push_str(BESIDE)?;
        match fs::remove_file(files, beside.as_str()) {
            Err(error) if error.kind() != ErrorKind::NotFound => return Err(error),
            _ => {}
        }
        let staged = FileDisk::open(alloc, files, beside.as_str())?;
        let folder = File::open(files, folder_of(name))?;
        Ok(StagedFile {
            lines,
            staged,
            beside,
            name: name.to_string(alloc)?,
            folder,
            place,
            is_named: false,
            last_sync,
        })
    }

    pub(crate) fn length(&mut self) -> Result<u64, DiskFault> {
        self.staged.length()
    }

    pub(crate) fn read(&mut self, at: u64, into: &mut [u8]) -> Result<(), DiskFault> {
        self.staged.read(at, into)
    }

    #[inline(never)]
    pub(crate) fn write_at(&mut self, at: u64, from: &[u8]) -> Result<(), DiskFault> {
        self.staged.write_at(at, from)
    }

    /// The first one that succeeds gives the file its name.
    // Apart, since it has room for a line: the sync of a journal would clear that too.
    #[inline(never)]
    pub(crate) fn sync(&mut self) -> Result<(), DiskFault> {
        self.staged.sync()?;
        if !self.is_named {
            self.take_name()?;
        }
        self.last_sync.mark();
        Ok(())
    }

    // A file that was renamed has its name after a crash once its folder is synced. Standard error is told.
    fn take_name(&mut self) -> Result<(), DiskFault> {
        if os::rename(self.beside.as_bytes(), self.name.as_bytes()) != 0 {
            return Err(DiskFault);
        }
        if self.folder.sync_all().is_err() {
            return Err(DiskFault);
        }
        self.is_named = true;
        self.lines.tell(&"standby joined, its copy is whole");
        Ok(())
    }
}

/// Whether a copy may be made in place of the file: it is empty, or an earlier copy there was never whole. It is marked then, so that no
/// mode takes it for a journal.
pub(crate) fn is_free(place: &mut FileDisk) -> io::Result<bool> {
    match is_marked(place) {
        Ok(is_marked) => Ok(is_marked),
        Err(DiskFault) => Err(io::Error::other("it can't be read or marked")),
    }
}

fn is_marked(place: &mut FileDisk) -> Result<bool, DiskFault> {
    let length = place.length()?;
    if length == 0 {
        place.write_at(0, &JOINING)?;
        place.sync()?;
        return Ok(true);
    }
    let mut held = [0; 8];
    if length != held.len() as u64 {
        return Ok(false);
    }
    place.read(0, &mut held)?;
    Ok(held == JOINING)
}
