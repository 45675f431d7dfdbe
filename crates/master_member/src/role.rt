use crate::counts::Counts;
use crate::tells::Tells;

/// What a member does in its term, which is its own number.
#[derive(Debug, Drop)]
pub enum Role {
    Following,
    /// It asks its peers for their logs, and has these.
    Gathering { tells: Tells },
    /// It has its peers store its log, and they have stored so much of it.
    Serving { counts: Counts },
}
