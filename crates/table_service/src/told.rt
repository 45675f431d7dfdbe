use member_wire::Outbox;

/// What a call of the service came to, and the messages that it sends.
#[derive(Debug, Drop)]
pub struct Told<T> {
    pub outcome: T,
    pub out: Outbox,
}
