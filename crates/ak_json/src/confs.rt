ghost use Rattle.std.specs.Prelude.{◌≡◌, IfOk, IfErr};
ghost use Rattle.serde_json.specs.View.{view};
ghost use Rattle.ak_base.specs.Heads.{AreConfNumbersInRange};
ghost use Rattle.ak_json.specs.Faults.{Tells};
ghost use Rattle.ak_json.specs.Confs.{ReadsConf, conf_fault, conf_json};

use crate::JsonFault;
use crate::cells::{bool_at, integer_at};
use crate::form_faults::refuse;
use crate::forms::CONF;
use crate::objects::object_form_fault;
use crate::rests::{read_rest, write_object};
use crate::written::Cell;
use ak_base::{Conf, Memory};
use serde_json::Value;
use std::alloc::Global;

/// The settings that an object stands for. A number out of its range is of the wrong kind.
pub fn read_conf(alloc: Global, value: &Value) -> Result<Conf, JsonFault>
    ensures ok { IfOk result (ReadsConf (view value.now)) }
    ensures range { IfOk result AreConfNumbersInRange }
    ensures err { IfErr result (Tells (conf_fault (view value.now))) }
{
    refuse(alloc, object_form_fault(&CONF, value))?;
    let rest = read_rest(alloc, &CONF, value)?;
    Ok(Conf {
        new_spread: integer_at(&CONF, 0, value),
        collapse: integer_at(&CONF, 1, value),
        day_learn_first: bool_at(&CONF, 2, value),
        next_pos: integer_at(&CONF, 3, value),
        last_unburied: integer_at(&CONF, 4, value),
        rest,
    })
}

/// The object of the settings, with the unknown keys that they keep.
pub fn write_conf(alloc: Global, conf: &Conf) -> Result<Value, Memory>
    ensures { IfOk result (λ value. view value ≡ conf_json conf.now) }
{
    write_object(
        alloc,
        &CONF,
        &[
            Cell::Integer(conf.new_spread),
            Cell::Integer(conf.collapse),
            Cell::Bool(conf.day_learn_first),
            Cell::Integer(conf.next_pos),
            Cell::Integer(conf.last_unburied),
        ],
        &conf.rest,
    )
}
