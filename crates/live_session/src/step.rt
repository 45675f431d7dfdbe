//! What a turn did to the calls of its connection.
use loop_journal::NotedCall;

/// What became of the calls of a connection in a turn.
#[derive(Clone, Copy, Debug)]
pub enum CallStep {
    /// None was started, and none has come to its outcome.
    Nothing,
    /// This one was started, and is under way.
    Begun(NotedCall),
    /// This one was under way, and has come to its outcome.
    Ended(NotedCall),
    /// This one was started and has come to its outcome.
    Made(NotedCall),
}
