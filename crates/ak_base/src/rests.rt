ghost use Rattle.std.specs.Prelude.{◌≡◌, ◌&&◌, ◌==◌, Bool, true, false, codes, IfOk};
ghost use Rattle.std.specs.Cmp.Lexicographic.{pointwise};
ghost use Rattle.std.specs.Option.{option_map_or};
ghost use Rattle.std.specs.Cmp.Rules.{comparing};
ghost use Rattle.std.proofs.Common.{refl, rules};
ghost use Rattle.serde_json.specs.Data.{Members, no_members};
ghost use Rattle.serde_json.specs.Find.{as_object};
ghost use Rattle.serde_json.specs.View.{view};
ghost use Rattle.serde_json.specs.Written.{compact_text};
ghost use Rattle.ak_base.specs.Rests.{members_of, is_plain, is_rest, lacks, lacks_options};
ghost use Rattle.ak_base.specs.Rests.{conf_keys, deck_keys, field_keys, note_type_keys, template_keys};

use crate::{Memory, Text};
use serde_json::Value;
use std::alloc::Global;
use std::marker::PhantomData;

/// An object that keeps keys which this project does not know: which members are none of its own keys.
pub trait Owner {
    ghost ignores: { Members → Bool };

    ghost ignores_none: { ignores no_members ≡ true };
}

/// A field of a note type.
#[derive(Debug, Drop)]
pub struct OfField;

/// A template of a note type.
#[derive(Debug, Drop)]
pub struct OfTemplate;

/// A note type.
#[derive(Debug, Drop)]
pub struct OfNoteType;

/// A deck.
#[derive(Debug, Drop)]
pub struct OfDeck;

/// An option group.
#[derive(Debug, Drop)]
pub struct OfOptions;

/// The settings of a collection.
#[derive(Debug, Drop)]
pub struct OfConf;

impl Owner for OfField {
    ghost ignores = { lacks field_keys };

    ghost ignores_none = { refl };
}

impl Owner for OfTemplate {
    ghost ignores = { lacks template_keys };

    ghost ignores_none = { refl };
}

impl Owner for OfNoteType {
    ghost ignores = { lacks note_type_keys };

    ghost ignores_none = { refl };
}

impl Owner for OfDeck {
    ghost ignores = { lacks deck_keys };

    ghost ignores_none = { refl };
}

impl Owner for OfOptions {
    ghost ignores = { lacks_options };

    ghost ignores_none = { refl };
}

impl Owner for OfConf {
    ghost ignores = { lacks conf_keys };

    ghost ignores_none = { refl };
}

/// The compact text of a JSON object: the keys of a row that this project does not know. It nests at
/// most 64 deep, holds whole numbers alone, and none of its owner's own keys.
#[derive(Debug, Drop)]
pub struct Rest<O: Owner> {
    pub text: Text,
    pub owner: PhantomData<O>,
    pub ghost unknown: { is_rest O.ignores text ≡ true },
}

impl<O: Owner> Rest<O> {
    /// The object without keys.
    pub fn empty(alloc: Global) -> Result<Rest<O>, Memory>
        ensures { IfOk result (λ rest. rest.text ≡ codes "{}") }
    {
        let text = Text::of(alloc, "{}")?;
        Ok(Rest {
            text,
            owner: PhantomData,
        })
    }

    /// The text of an object.
    pub fn of(alloc: Global, value: &Value) -> Result<Rest<O>, Memory>
        requires { option_map_or (λ members. is_plain members && O.ignores members) (as_object (view value.now)) false ≡ true }
        ensures text { IfOk result (λ rest. rest.text ≡ compact_text (view value.now)) }
        ensures members { IfOk result (λ rest. members_of rest.text ≡ as_object (view value.now)) }
    {
        let text = Text::from(value.to_string(alloc)?);
        Ok(Rest {
            text,
            owner: PhantomData,
        })
    }

    /// The compact text of the object.
    pub fn as_str(&self) -> &str
        ensures { result.now ≡ self.now.text }
    {
        self.text.as_str()
    }

    /// The object itself.
    pub fn value(&self, alloc: Global) -> Result<Value, Memory>
        ensures { IfOk result (λ value. as_object (view value) ≡ members_of self.now.text) }
    {
        match Value::from_str(alloc, self.text.as_str()) {
            Ok(value) => Ok(value),
            Err(error) => {
                // The text is one of an object, so nothing else than memory can be wanting.
                let memory = error.is_memory();
                prove!(memory);
                Err(Memory)
            }
        }
    }

    /// An equal object of its own.
    pub fn copy(&self) -> Result<Rest<O>, Memory>
        ensures { IfOk result (λ made. made ≡ self.now) }
    {
        let text = self.text.copy()?;
        Ok(Rest {
            text,
            owner: PhantomData,
        })
    }
}

impl<O: Owner> PartialEq for Rest<O> {
    ghost eq = { λ a b. pointwise ◌==◌ a.text b.text };

    ghost laws = { Prim.search (comparing, rules) };

    fn eq(&self, other: &Rest<O>) -> bool {
        self.text.as_str() == other.text.as_str()
    }
}
