use event_codecs::Registration;
use grid_base::{Bytes, Request};

/// What a message of a connection gives.
#[derive(Debug, Drop)]
pub enum Item {
    /// A call of a known client, in the partition that its message states. An entry's is that of its key.
    Call(Request),
    /// Such a call that may wait.
    Wait {
        request: Request,
        /// For how many milliseconds.
        timeout: i64,
    },
    /// What a known client asks to be told from now on. Whoever takes it answers it.
    Register(Registration),
    /// The bytes of an answer or a refusal that the session gives itself.
    Reply(Bytes),
}
