ghost use Rattle.std.specs.Prelude.{◌≡◌, ◌==◌, map, IfOk};
ghost use Rattle.std.specs.List.{slice_split};
ghost use Rattle.ak_base.specs.Columns.{first_fault};
ghost use Rattle.ak_base.specs.NoteTexts.{fields_in, tags_in};
ghost use Rattle.ak_base.specs.Notes.{note_faults, identity_faults, content_faults};

use crate::columns::{code_fault, first_fault, id_fault, long_fault, stamp_fault};
use crate::{EXTRA_BYTES, LAST_USN, Memory, RowFault, TAGS_BYTES, TEXT_BYTES, Text};
use std::alloc::Global;

/// A note, as schema 11's `notes` keeps it: the texts that cards are made of.
#[derive(Debug, PartialEq, Drop)]
pub struct Note {
    /// When the note was made, in milliseconds.
    pub id: i64,
    /// What the note is called on every device, at most 64 bytes.
    pub guid: Text,
    /// The id of its note type.
    pub mid: i64,
    /// When the row was changed last, in seconds: the column `mod`.
    pub stamp: i64,
    /// The update sequence number (usn), -1 for a row that was not sent yet.
    pub usn: i64,
    /// Empty, or a space, the tags by bytes with one space between, and a space.
    pub tags: Text,
    /// The fields, joined by the byte 0x1F.
    pub flds: Text,
    /// The text that notes are sorted by.
    pub sfld: Text,
    /// The first four bytes of the SHA-1 of the first field's text, as a number.
    pub csum: i64,
    pub flags: i64,
    /// The column `data`.
    pub extra: Text,
}

impl Note {
    /// The first column that is out of its range.
    #[tactic(auto, using(crate::proofs::FirstFaults::fault_of_front, crate::proofs::FirstFaults::fault_behind))]
    pub fn check(&self) -> Result<(), RowFault>
        ensures { result ≡ first_fault (note_faults self.now) }
    {
        self.check_identity()?;
        self.check_content()
    }

    /// What the note is called, its type, and when it was changed.
    #[tactic(auto, unfolding(crate::specs::Notes::identity_faults))]
    fn check_identity(&self) -> Result<(), RowFault>
        ensures { result ≡ first_fault (identity_faults self.now) }
    {
        first_fault(&[
            id_fault(self.id),
            long_fault(1, self.guid.as_str().len() as u64, 64),
            id_fault(self.mid),
            stamp_fault(self.stamp),
            code_fault(4, self.usn, -1, LAST_USN),
        ])
    }

    /// What the note says, and its marks.
    #[tactic(auto, unfolding(crate::specs::Notes::content_faults))]
    fn check_content(&self) -> Result<(), RowFault>
        ensures { result ≡ first_fault (content_faults self.now) }
    {
        first_fault(&[
            long_fault(5, self.tags.as_str().len() as u64, TAGS_BYTES),
            long_fault(6, self.flds.as_str().len() as u64, TEXT_BYTES),
            long_fault(7, self.sfld.as_str().len() as u64, TEXT_BYTES),
            code_fault(8, self.csum, 0, 4_294_967_295),
            code_fault(9, self.flags, 0, 2_147_483_647),
            long_fault(10, self.extra.as_str().len() as u64, EXTRA_BYTES),
        ])
    }

    /// The fields, in their order.
    pub fn field_list(&self, alloc: Global) -> Result<Vec<&str>, Memory>
        ensures { IfOk result (λ fields. map (λ field. field.now) fields.items ≡ fields_in self.now.flds) }
    {
        let fields: Vec<&str> = self.flds.as_str().split('\u{1f}').collect(alloc)?;
        Ok(fields)
    }

    /// The tags, in the order in which they are stored.
    pub fn tag_list(&self, alloc: Global) -> Result<Vec<&str>, Memory>
        ensures { IfOk result (λ tags. map (λ tag. tag.now) tags.items ≡ tags_in self.now.tags) }
    {
        let words = words_of(alloc, self.tags.as_str())?;
        let mut tags = Vec::new(alloc);
        for word in words.as_slice() {
            if !word.is_empty() {
                tags.push(*word)?;
            }
        }
        Ok(tags)
    }

    /// An equal note of its own.
    pub fn copy(&self) -> Result<Note, Memory>
        ensures { IfOk result (λ made. made ≡ self.now) }
    {
        Ok(Note {
            id: self.id,
            guid: self.guid.copy()?,
            mid: self.mid,
            stamp: self.stamp,
            usn: self.usn,
            tags: self.tags.copy()?,
            flds: self.flds.copy()?,
            sfld: self.sfld.copy()?,
            csum: self.csum,
            flags: self.flags,
            extra: self.extra.copy()?,
        })
    }
}

/// The words between spaces, empty ones too.
fn words_of(alloc: Global, text: &str) -> Result<Vec<&str>, Memory>
    ensures { IfOk result (λ words. map (λ word. word.now) words.items ≡ slice_split (λ byte. byte == 32) text.now) }
{
    let words: Vec<&str> = text.split(' ').collect(alloc)?;
    Ok(words)
}
