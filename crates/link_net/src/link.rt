/// The way of messages from one end to another.
#[derive(Clone, Copy, Debug, PartialEq, Eq)]
pub struct Link {
    pub from: u8,
    pub to: u8,
}
