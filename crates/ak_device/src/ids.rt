// Rows as messages bring them have an id, and of a grave the id alone comes.
ghost use Rattle.std.specs.Prelude.{◌≡◌, ℤ};

use ak_base::{Card, Deck, Note, NoteType, Options, Review};

/// What has the id of a row.
pub(crate) trait HasId {
    ghost id_of: { Self → ℤ };

    /// The id.
    fn id(&self) -> i64
        ensures { result ≡ id_of self.now };
}

impl HasId for i64 {
    ghost id_of = { λ id. id };

    fn id(&self) -> i64 {
        *self
    }
}

impl HasId for Note {
    ghost id_of = { λ note. note.id };

    fn id(&self) -> i64 {
        self.id
    }
}

impl HasId for Card {
    ghost id_of = { λ card. card.id };

    fn id(&self) -> i64 {
        self.id
    }
}

impl HasId for Review {
    ghost id_of = { λ review. review.id };

    fn id(&self) -> i64 {
        self.id
    }
}

impl HasId for NoteType {
    ghost id_of = { λ note_type. note_type.id };

    fn id(&self) -> i64 {
        self.id
    }
}

impl HasId for Deck {
    ghost id_of = { λ deck. deck.id };

    fn id(&self) -> i64 {
        self.id
    }
}

impl HasId for Options {
    ghost id_of = { λ options. options.id };

    fn id(&self) -> i64 {
        self.id
    }
}
