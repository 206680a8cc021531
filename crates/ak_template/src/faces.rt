ghost use Rattle.std.specs.Prelude.{◌≡◌, Some, None, IfSome, IfNone};
ghost use Rattle.ak_template.specs.Pages.{pair_value, field_value};

use ak_base::{List, Memory, Text};
use std::alloc::AllocError;

/// A field of the note, or another name that a template may show, and its text.
#[derive(Debug, Drop)]
pub struct Pair {
    pub name: Text,
    pub value: Text,
}

/// What a template is shown with.
#[derive(Debug, Drop)]
pub struct Face {
    pub fields: List<Pair>,
    /// The page of the front, on a back.
    pub front: Option<Text>,
    /// The number of the card among those of its note, from 1.
    pub number: i64,
}

/// Why there is no page.
#[derive(Debug, Drop)]
pub enum PageFault {
    /// No pair of that name.
    NoField(Text),
    /// No filter of that name.
    NoFilter(Text),
    Memory,
}

impl From<Memory> for PageFault {
    ghost use Rattle.std.specs.Prelude.{◌≡◌};
    ghost use Rattle.ak_template.specs.declared.faces.PageFault.TheVariants as faults;

    ghost from_gives = { λ memory fault. fault ≡ faults.Memory };

    fn from(_memory: Memory) -> PageFault {
        PageFault::Memory
    }
}

impl From<AllocError> for PageFault {
    ghost use Rattle.std.specs.Prelude.{◌≡◌};
    ghost use Rattle.ak_template.specs.declared.faces.PageFault.TheVariants as faults;

    ghost from_gives = { λ memory fault. fault ≡ faults.Memory };

    fn from(_error: AllocError) -> PageFault {
        PageFault::Memory
    }
}

/// The value of a field. `FrontSide` is the page of the front, and empty on a front, whatever the pairs are.
pub fn value_of<'a>(face: &'a Face, name: &str) -> Option<&'a str>
    ensures some { IfSome result (λ value. field_value face.now name.now ≡ Some value.now) }
    ensures none { IfNone result (field_value face.now name.now ≡ None) }
{
    if name == "FrontSide" {
        return match &face.front {
            Some(front) => Some(front.as_str()),
            None => Some(""),
        };
    }
    match value_among(face.fields.as_slice(), name) {
        Some(value) => Some(value.as_str()),
        None => None,
    }
}

/// The value of the first pair of that name.
fn value_among<'a>(pairs: &'a [Pair], name: &str) -> Option<&'a Text>
    ensures some { IfSome result (λ value. pair_value pairs.now name.now ≡ Some value.now) }
    ensures none { IfNone result (pair_value pairs.now name.now ≡ None) }
{
    for pair in pairs {
        if pair.name.as_str() == name {
            return Some(&pair.value);
        }
    }
    None
}
