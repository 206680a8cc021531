use ak_base::List;

/// How many bytes an input holds at most.
pub const INPUT_LIMIT: u64 = 1_073_741_824;

/// How many bytes a line holds at most, its line feed aside.
pub const LINE_LIMIT: u64 = 1_048_576;

/// What the next line of an input is.
#[derive(Debug, Drop)]
pub enum Line {
    /// Its bytes, without the line feed.
    Whole(List<u8>),
    /// A line of more bytes than a line holds.
    TooLong,
    /// The line that holds the first byte past what an input holds.
    PastInput,
}
