//! What holds of the words and of what the seats know, between any two steps.
ghost use Rattle.fabric_words.specs.Laws.{IsAlwaysCore};

/// Between any two steps the words and the views of all seats are a state of the core that its events reach from the start, and that
/// state is hitless.
pub fn is_core()
    ensures { IsAlwaysCore }
{}
