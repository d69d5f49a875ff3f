//! What is said to a line.

/// Nothing to a line that is passed over, or an answer, or why the line is no request.
// No Option of a Result: each of the three is counted in its own way, and has a name of its own for it.
#[derive(Drop)]
pub enum Reply {
    Nothing,
    Answer(String),
    Refusal(String),
}
