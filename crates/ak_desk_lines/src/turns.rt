/// When a line comes, and what it is given besides its words.
#[derive(Clone, Copy, Debug)]
pub struct Turn {
    /// The moment in milliseconds, from 0 to 4,294,967,294,999.
    pub at: i64,
    /// The word of chance for the name of a new note, and for when an answered card comes again. Other lines don't look
    /// at it.
    pub chance: u64,
    /// How many answers were accepted before in this run.
    pub done: u64,
}
