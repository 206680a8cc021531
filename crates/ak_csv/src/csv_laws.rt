ghost use Rattle.ak_csv.specs.NotesAgain.{AreReadAgain, HasOneReading};

/// Law: what notes are written as is read as their guids, tags and fields, in their order. Each of them has as many fields as
/// the type and a guid that no note of another type has, and the first guid does not begin with a byte order mark.
#[tactic(auto, using(crate::proofs::ReadAgain::read_again))]
pub fn written_notes_are_read_again()
    ensures { AreReadAgain }
{}

/// Law: a text is read in one way only. So what is said of some rows of a text is said of all that a reading of it gives.
pub fn texts_have_one_reading()
    ensures { HasOneReading }
{}
