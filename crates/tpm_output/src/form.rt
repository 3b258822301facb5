//! How what is told is written.

/// How what is told is written.
#[derive(Clone, Copy, Debug, PartialEq, Eq)]
pub enum Form {
    /// In lines.
    Lines,
    /// As objects of JSON, one in a line.
    Json,
}
