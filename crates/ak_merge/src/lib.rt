// What a sync joins and what an edit may do: the join of two collections, when they are apart, sound and linked,
// and how a row is taken, with the laws that hold of them.
#![tactic(auto)]

mod check_links;
mod checks;
mod commit_laws;
mod conflicts;
mod content_laws;
mod edit_building;
mod edit_laws;
mod exchange_laws;
mod first_links;
mod join_laws;
mod laws;
mod part_laws;
mod sides;
mod tag_laws;
mod tag_maps;
mod tags;
mod takes;

pub use checks::{CheckFault, check};
pub use commit_laws::{commits_keep_fits, commits_keep_links, commits_stay_lawful};
pub use conflicts::apart;
pub use content_laws::{
    contents_are_equivalent, counts_by_content, rows_are_equivalent, sound_by_content,
};
pub use edit_building::{
    edits_keep_all, maps_are_admitted, puts_are_admitted, removals_are_admitted,
    schema_changes_are_admitted, settings_are_admitted, sweeps_are_admitted, tags_are_admitted,
    unedited_is_admitted,
};
pub use edit_laws::{
    edits_keep_links, edits_keep_names, lists_after_suit, lists_suit, lists_suit_after_undo,
    oldest_may_go, schema_edits_part, steps_fit, steps_still_fit, undos_give_back,
    undos_keep_links, undos_keep_names,
};
pub use exchange_laws::{
    device_half_joins, device_half_links, device_rows_join, exchange_links, server_half_joins,
    server_rows_join,
};
pub use first_links::{
    copies_are_linked, equal_heads_are_equal_contents, fresh_schemas_link, openings_are_lawful,
    uploads_are_lawful, uploads_keep_links,
};
pub use join_laws::{join_commutes, join_once, last_settings_stand, taking_joins};
pub use laws::{
    apart_has_no_tie, first_conflict_is_least, first_fault_is_least, sound_has_no_fault,
};
pub use part_laws::{
    graves_are_made_anew, numbers_make_no_difference, parts_add_up, pending_was_held,
    rows_stand_between, settling_may_come_first, takings_stay_lawful, wanted_rows_are_listed,
    wanted_rows_never_grow,
};
pub use sides::Side;
pub use tag_laws::{
    settled_tags_stay_lawful, tag_parts_add_up, tags_are_united, tags_stay_in_range,
    tags_stay_ordered, wanted_tags_are_listed,
};
pub use tags::{settle_tags, take_tags};
pub use takes::{newer, take_row};
