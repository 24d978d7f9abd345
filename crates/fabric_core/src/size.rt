use dxc_num::Shape;

/// How large a fabric is: the network's shape, and how many workers carry its frames. Worker w of n has the output modules j with
/// `j mod n = w`.
#[derive(Clone, Copy, PartialEq, Eq)]
pub struct Size {
    pub shape: Shape,
    pub workers: u16,
}

impl Size {
    /// The most workers.
    pub const WORKERS: u16 = 8;
}
