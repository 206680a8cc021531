use ak_base::{List, Text};

/// A note as a record from elsewhere has it. Nothing of it was tested.
#[derive(Debug, PartialEq, Drop)]
pub struct Record {
    pub guid: Text,
    pub tags: List<Text>,
    pub fields: List<Text>,
}
