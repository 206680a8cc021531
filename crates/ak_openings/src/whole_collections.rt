use ak_base::{Head, List, Row};

/// A whole collection: its rows, by table and id, and its head.
#[derive(Debug, Drop)]
pub struct Opening {
    pub rows: List<Row>,
    pub head: Head,
}
