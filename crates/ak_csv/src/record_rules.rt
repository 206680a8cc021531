use std::collections::BTreeSet;

/// What records are tested by.
#[derive(Drop)]
pub struct RecordRules {
    /// How many fields a note of the type has; None if the type is not held.
    pub fields: Option<u64>,
    /// The guids that notes of other types have.
    pub others: BTreeSet<String>,
}
