use event_codecs::Registration;

/// A registration, with the connection that it came on.
#[derive(Debug, Drop)]
pub struct Listener {
    pub conn: u32,
    pub registration: Registration,
}
