use dxc_outside::Moment;

/// The moment at which each clock stands.
pub const NOON: Moment = Moment {
    year: 26,
    month: 3,
    day: 1,
    hour: 12,
    minute: 0,
    second: 0,
};
