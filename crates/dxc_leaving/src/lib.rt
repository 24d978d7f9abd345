//! What a program lets go when its work is done, and through whom.
#![tactic(auto)]

/// Through whom things are let go.
pub trait LetGo {
    ghost use Rattle.dxc_leaving.specs.Values.{AnyValue, any_value};

    /// That this was let go, as it stands here. Nothing but `let_go` gives it of a type that isn't known, and that takes what it lets go, so
    /// nothing was done with it after that.
    ghost gone: { AnyValue → Type 0 };

    /// Lets it go.
    fn let_go<T: Drop>(&self, left: T)
        ensures { gone (any_value left) };
}
