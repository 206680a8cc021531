/// Where the notes of a file go.
#[derive(Clone, Copy, Debug, PartialEq, Eq)]
pub struct ImportPlace {
    /// The id of their type.
    pub note_type: i64,
    /// The id of the deck for the cards of those that are new.
    pub deck: i64,
}
