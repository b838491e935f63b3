//! The outcome of a command (good, refused or other), for callers that count replies and don't read their
//! texts.
/// How a command ended, by the first bytes of its reply.
#[derive(Clone, Copy, Debug, PartialEq, Eq)]
pub enum Outcome {
    /// The reply is `ok`, or begins with `=`.
    Good,
    /// The reply begins with `refused`.
    Refused,
    /// Any other reply.
    Other,
}
