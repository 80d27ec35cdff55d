//! Why an edit of a table is refused.

/// Why an edit of a table of buffers is refused. Where several causes hold the first one in the edit's own
/// order is reported, and the table is as before.
#[derive(Clone, Copy, Debug, PartialEq, Eq)]
pub enum EditRefused {
    /// No buffer has a name that is read or written.
    UnknownBuffer,
    /// A buffer has the new name already.
    NameTaken,
    /// A rectangle has positions outside its buffer's extent, or outside the plane once it is moved.
    OutOfBounds,
    /// The bytes are more or fewer than the rectangle has in the buffer's format.
    WrongSize {
        /// How many bytes there are.
        found: u64,
        /// How many there should be.
        wanted: u64,
    },
    /// The samples are no pixel of the buffer's format, or two buffers have different formats.
    Formats,
    /// The table has 64 buffers already.
    TooManyBuffers,
}
