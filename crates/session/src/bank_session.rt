//! The bank of a session.
use lineup::Built;

/// A session, and the bank that is open in it.
#[derive(Drop)]
pub struct Session {
    pub(crate) open: Option<Built>,
}
