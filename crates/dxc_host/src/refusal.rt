use std::alloc::Global;
use std::fmt::{self, Display, Formatter, Write};
use std::io::{self, ErrorKind};
use std::str;

/// What couldn't be opened, and why: the name as it was asked for, and the system's own text. In a name a byte that no terminal prints is
/// shown by its number.
#[derive(Drop)]
pub struct Refusal {
    name: String,
    error: io::Error,
}

impl Refusal {
    /// None where memory for the name is wanting.
    pub fn of(alloc: Global, name: &str, error: &io::Error) -> Option<Refusal> {
        let mut held = String::new(alloc);
        held.push_str(name).ok()?;
        Some(Refusal {
            name: held,
            error: *error,
        })
    }
}

impl Display for Refusal {
    fn fmt<W: Write>(&self, f: &mut Formatter<W>) -> fmt::Result {
        write!(f, "{}: ", self.name.as_str().escape_debug())?;
        match self.error.raw_os_error() {
            Some(code) => write_system_text(f, code),
            // So `try_lock` says that another one has the lock.
            None if self.error.kind() == ErrorKind::WouldBlock => {
                f.write_str("another program has it")
            }
            None => write!(f, "{}", self.error),
        }
    }
}

// The system's text for the number of an error.
fn write_system_text<W: Write>(f: &mut Formatter<W>, code: i32) -> fmt::Result {
    let mut room = [0; 128];
    let length = os::error_text(code, &mut room);
    match str::from_utf8(&room[..length]) {
        Ok(text) => f.write_str(text),
        Err(_) => write!(f, "error {code}"),
    }
}
