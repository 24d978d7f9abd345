/// A side of the network: rows are its input modules, columns its output modules.
#[derive(Clone, Copy, PartialEq, Eq)]
pub enum Side {
    Row,
    Column,
}
