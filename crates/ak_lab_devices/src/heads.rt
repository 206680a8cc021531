ghost use Rattle.std.specs.Prelude.{◌≡◌, IfOk, ◌∷◌, []};
ghost use Rattle.serde_json.specs.Data.{string};
ghost use Rattle.serde_json.specs.View.{view};
ghost use Rattle.serde_json.specs.Written.{compact_text};
ghost use Rattle.ak_json.specs.Confs.{conf_json};
ghost use Rattle.ak_lab_devices.specs.Shows.{head_line, tags_json};

use ak_base::{Conf, Head, List, Memory, Tag, Text};
use ak_json::{write_conf, write_text};
use serde_json::Value;
use std::alloc::Global;

/// The line of a head: an object of its settings, its moment of creation in seconds and the names of its tags.
pub fn head_text(alloc: Global, head: &Head) -> Result<Text, Memory>
    ensures { IfOk result (λ text. text ≡ head_line head.now) }
{
    let conf = conf_text(alloc, &head.conf)?;
    let conf = conf.as_str();
    let tags = tags_text(alloc, head.tags.as_slice())?;
    let tags = tags.as_str();
    let crt = head.crt;
    let text = format!(in alloc; "{{\"conf\":{conf},\"crt\":{crt},\"tags\":{tags}}}")?;
    Ok(Text::from(text))
}

/// The one line of a head.
pub(crate) fn head_texts(alloc: Global, head: &Head) -> Result<List<Text>, Memory>
    ensures { IfOk result (λ texts. texts ≡ head_line head.now ∷ []) }
{
    let mut texts = List::new(alloc);
    texts.push(head_text(alloc, head)?)?;
    Ok(texts)
}

/// The settings as JSON.
#[tactic(auto, using(crate::proofs::WholeHeads::conf_whole))]
fn conf_text(alloc: Global, conf: &Conf) -> Result<Text, Memory>
    ensures { IfOk result (λ text. text ≡ compact_text (conf_json conf.now)) }
{
    let value = write_conf(alloc, conf)?;
    write_text(alloc, &value)
}

/// The names of the tags as JSON.
#[tactic(auto, using(crate::proofs::WholeHeads::tags_whole))]
fn tags_text(alloc: Global, tags: &[Tag]) -> Result<Text, Memory>
    ensures { IfOk result (λ text. text ≡ compact_text (tags_json tags.now)) }
{
    let value = tags_value(alloc, tags)?;
    write_text(alloc, &value)
}

/// The list of the names of the tags.
fn tags_value(alloc: Global, tags: &[Tag]) -> Result<Value, Memory>
    ensures { IfOk result (λ value. view value ≡ tags_json tags.now) }
{
    let mut names = Vec::new(alloc);
    for tag in tags {
        names.push(tag_value(alloc, tag)?)?;
    }
    Ok(Value::Array(names))
}

/// The name of a tag as JSON.
fn tag_value(alloc: Global, tag: &Tag) -> Result<Value, Memory>
    ensures { IfOk result (λ value. view value ≡ string tag.now.name) }
{
    Ok(Value::try_from_str(alloc, tag.name.as_str())?)
}
