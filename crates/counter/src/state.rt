//! What is kept between lines.
use session::Session;

/// The session with a bank, which lasts from line to line.
#[derive(Drop)]
pub struct Desk {
    pub(crate) session: Session,
}
