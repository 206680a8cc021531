use ak_edit::DeskFault;
use ak_search::SearchFault;

/// Why a line is refused at the desk.
#[derive(Debug, Drop)]
pub enum LineRefusal {
    /// The desk's own rules refuse, the keeper failed, or memory is out.
    Desk(DeskFault),
    /// The deck of this id is held and is not filtered.
    NotFiltered(i64),
    /// The plan of the deck of this id is not of the form, or its limit or order is out of its range; 0 for a plan
    /// that was given.
    BadPlan(i64),
    /// The search of a filtered deck can't be read.
    Search(SearchFault),
}
