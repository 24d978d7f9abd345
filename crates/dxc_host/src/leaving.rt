use crate::HostOpener;
use dxc_leaving::LetGo;

// It lets go by dropping.
impl<T> LetGo for HostOpener<T> {
    ghost gone = { λ _. Unit {0} };

    fn let_go<X: Drop>(&self, _left: X) {}
}
