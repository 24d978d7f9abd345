use std::fs::{self, File, OpenOptions};
use std::io::{self, ErrorKind};
use std::os::unix::fs::FileTypeExt;
use std::rt::Files;

/// The input of that path. A FIFO is opened for both ways where that is allowed: so the call doesn't wait for a writer, and frames go on
/// where a writer ends and another one comes.
pub(crate) fn open_input<R: Files<File = File>>(files: &R, path: &str) -> io::Result<File> {
    if !fs::metadata(files, path)?.file_type().is_fifo() {
        return File::open(files, path);
    }
    match OpenOptions::new().read(true).write(true).open(files, path) {
        Err(error) if error.kind() == ErrorKind::PermissionDenied => File::open(files, path),
        opened => opened,
    }
}

/// The output of that path, which is made where it isn't there and keeps its bytes where it is. A file of a disk is locked, so that two
/// programs don't write one output.
pub(crate) fn open_output<R: Files<File = File>>(files: &R, path: &str) -> io::Result<File> {
    let file = OpenOptions::new()
        .write(true)
        .create(true)
        .open(files, path)?;
    if file.metadata()?.is_file() {
        file.try_lock()?;
    }
    Ok(file)
}
