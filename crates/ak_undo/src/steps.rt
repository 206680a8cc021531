use ak_base::{Conf, List, Name, Row, Tag};

/// What stood under a name before an edit.
#[derive(Debug, PartialEq, Drop)]
pub struct Before {
    pub name: Name,
    /// None if nothing stood there: the edit added what stands there now.
    pub row: Option<Row>,
}

/// What an edit changed, as it was before: the rows under exactly the names that it changed, in any order, and the
/// settings and the tags of the collection.
#[derive(Debug, PartialEq, Drop)]
pub struct Step {
    pub rows: List<Before>,
    /// The settings.
    pub head: Conf,
    pub tags: List<Tag>,
}
