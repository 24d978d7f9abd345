use crate::HostClock;
use dxc_outside::{Clock, Moment};
use std::fmt::{self, Display, Formatter, Write};

/// A moment at UTC, as lines on standard error show it.
#[derive(Clone, Copy, Drop)]
pub struct Utc(pub Moment);

impl Utc {
    /// The clock's.
    pub fn now() -> Utc {
        Utc(HostClock::new().now())
    }
}

impl Display for Utc {
    fn fmt<W: Write>(&self, f: &mut Formatter<W>) -> fmt::Result {
        let Moment {
            year,
            month,
            day,
            hour,
            minute,
            second,
        } = self.0;
        write!(
            f,
            "20{year:02}-{month:02}-{day:02} {hour:02}:{minute:02}:{second:02} UTC"
        )
    }
}
