// The date and time of a header.
ghost use Rattle.std.specs.Prelude.{◌≡◌, ◌≤◌, ◌+◌, ◌/◌, ◌%◌, true, [], ◌∷◌, length};
ghost use Rattle.std.specs.Int.{w16, w32, to_le_bytes};
ghost use Rattle.dxc_outside.specs.Moments.{IsMoment};
ghost use Rattle.tl1_answer.specs.Messages.{stamp_text};

use dxc_outside::Moment;
use std::marker::Model;

/// A moment with its text. Most headers show the moment of the one before, so its text is kept.
#[derive(Drop)]
pub struct Stamp {
    moment: Moment,
    text: [u8; 20],
}

impl Model for Stamp {
    ghost use Rattle.std.specs.Prelude.{◌≡◌};
    ghost use Rattle.dxc_outside.specs.declared.clock.Moment.{Moment};
    ghost use Rattle.tl1_answer.specs.Messages.{stamp_text};

    ghost Value = { Moment };

    ghost view = { λ s. s.moment };

    ghost invariant = { λ s. s.text ≡ stamp_text s.moment };
}

impl Stamp {
    pub fn of(moment: Moment) -> Stamp
        requires { IsMoment moment }
        ensures { result ≡ moment }
    {
        let text = text_of(moment);
        Stamp { moment, text }
    }

    /// Shows a moment; its text is written anew only where it is another one.
    #[inline(always)]
    pub fn show(&mut self, moment: Moment)
        requires { IsMoment moment }
        ensures { self.new ≡ moment }
    {
        if !is_same(self.moment, moment) {
            self.text = text_of(moment);
            self.moment = moment;
        }
    }

    pub fn bytes(&self) -> &[u8; 20]
        ensures { result.now ≡ stamp_text self.now }
    {
        &self.text
    }
}

/// Whether two moments are one: four of their fields are compared as one number, and then two.
#[inline(always)]
fn is_same(left: Moment, right: Moment) -> bool
    ensures { result ≡ true → left ≡ right }
{
    date_of(left) == date_of(right) && time_of(left) == time_of(right)
}

/// Year, month, day and hour as one number.
#[inline(always)]
fn date_of(moment: Moment) -> u32
    ensures { to_le_bytes w32 result ≡ moment.year ∷ moment.month ∷ moment.day ∷ moment.hour ∷ [] }
{
    u32::from_le_bytes([moment.year, moment.month, moment.day, moment.hour])
}

/// Minute and second as one number.
#[inline(always)]
fn time_of(moment: Moment) -> u16
    ensures { to_le_bytes w16 result ≡ moment.minute ∷ moment.second ∷ [] }
{
    u16::from_le_bytes([moment.minute, moment.second])
}

#[inline(never)]
fn text_of(moment: Moment) -> [u8; 20]
    requires { IsMoment moment }
    ensures { result ≡ stamp_text moment }
{
    let Moment {
        year,
        month,
        day,
        hour,
        minute,
        second,
    } = moment;
    [
        b' ',
        tens(year),
        ones(year),
        b'-',
        tens(month),
        ones(month),
        b'-',
        tens(day),
        ones(day),
        b' ',
        tens(hour),
        ones(hour),
        b':',
        tens(minute),
        ones(minute),
        b':',
        tens(second),
        ones(second),
        b'\r',
        b'\n',
    ]
}

pub(crate) fn tens(number: u8) -> u8
    ensures { result ≡ 48 + number / 10 }
{
    b'0' + number / 10
}

pub(crate) fn ones(number: u8) -> u8
    ensures { result ≡ 48 + number % 10 }
{
    b'0' + number % 10
}
