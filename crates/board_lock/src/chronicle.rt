//! What has a history.

/// A value with a program that never changes and a list of events. The list is shorter than 2^64,
/// as `count` says.
pub trait Chronicle {
    ghost use Rattle.std.specs.Prelude.{◌≡◌, List, length};

    /// Plain data of the implementor's own.
    type Program;

    /// What an event is for a contract; the value may keep its events in another form.
    type Event;

    ghost program: { Self → Self.Program };

    /// The events so far, the first one first.
    ghost events: { Self → List Self.Event };

    /// How many events there are.
    fn count(&self) -> u64
        ensures { result ≡ length (events self.now) };
}
