//! The requests about received blocks and messages that a line can be.

/// What has come in, under the name that its answer is given back with.
#[derive(Drop)]
pub enum Arrival {
    /// A block of an interleaving depth, and the length of the message in it.
    Receive {
        id: String,
        depth: usize,
        length: usize,
        block: Vec<u8>,
    },
    /// The message that comes next.
    Next {
        id: String,
        message: Vec<u8>,
    },
}
