ghost use Rattle.std.specs.Prelude.{◌≡◌, ◌++◌, [], ◌∷◌, true, is_some, None, Some, OnOk, OnErr, IfOk, IfSome};
ghost use Rattle.std.specs.Option.{option_map, unwrap_or};
ghost use Rattle.std.specs.Result.{IsErrOf};
ghost use Rattle.ak_base.specs.Heads.{IsConfInRange};
ghost use Rattle.std.specs.FinMap as map;
ghost use Rattle.ak_base.specs.Rows.{IsChecked, name_of, stamp_of};
ghost use Rattle.ak_keep.specs.Readings.{ReadsBy};
ghost use Rattle.ak_keep.specs.declared.keepers.KeepFault.TheVariants.{Memory as WantOfMemory};
ghost use Rattle.ak_merge.specs.Tags.{IsTagName};
ghost use Rattle.ak_edit.specs.Overlays.{IsConfOver, IsFitting, IsRowOver, IsSet, IsStampOver, conf_over, entry_at, put_over, removed_over, schema_over, tag_over, unchanged};

use ak_base::{Conf, Memory, Name, Row, Text};
use ak_keep::{KeepFault, Lookup};
use std::alloc::Global;
use std::collections::BTreeMap;
use std::marker::Model;

/// The changes of an edit under way, beside a keeper that is only read until the edit's end.
#[derive(Drop)]
pub struct Change {
    /// What stands anew under each name that was changed, None if the row was removed.
    pub(crate) rows: BTreeMap<Name, Option<Row>>,
    /// None if the settings stay.
    pub(crate) conf: Option<Conf>,
    /// The names of the tags that came, those that are held too.
    pub(crate) tags: Vec<Text>,
    pub(crate) schema: bool,
}

impl Model for Change {
    ghost use Rattle.std.specs.FinMap as map;
    ghost use Rattle.std.specs.Coded.{codes};
    ghost use Rattle.ak_edit.specs.Overlays.{IsFitting, Overlay, overlay_code};

    ghost Value = { Overlay };

    ghost coded = { overlay_code (map.code (Prim.hlevel codes) (Prim.hlevel codes)) (Prim.hlevel codes) };

    ghost view = { λ change. record {
      rows = map.from_entries change.rows.entries;
      conf = change.conf;
      tags = change.tags.items;
      schema = change.schema;
    } };

    ghost invariant = { λ change. IsFitting (record {
      rows = map.from_entries change.rows.entries;
      conf = change.conf;
      tags = change.tags.items;
      schema = change.schema;
    }) };
}

impl Change {
    /// An edit that changes nothing yet. It takes no memory.
    pub fn new(alloc: Global) -> Change
        ensures { result ≡ unchanged }
    {
        Change {
            rows: BTreeMap::new(alloc),
            conf: None,
            tags: Vec::new(alloc),
            schema: false,
        }
    }

    /// A copy of the row of this name as the edit has it so far, with the stamp and usn that it had.
    pub fn get<R: Lookup>(&self, from: &mut R, name: Name) -> Result<Option<Row>, KeepFault>
        ensures reads { ReadsBy R.Lookup from.old from.new result (IsRowOver self.now name) }
        ensures named { IfOk result (λ row. IfSome row (λ row. name_of row ≡ name)) }

        // Of a row that the edit put nothing is known before its end.
        ensures checked { R.checks ≡ true → map.get self.now.rows name ≡ None → IfOk result (λ r. IfSome r IsChecked) }
    {
        match self.changed(&name)? {
            Some(row) => Ok(row),
            None => from.get(name),
        }
    }

    /// The stamp of the row of this name as the edit has it so far: the one that it had.
    #[tactic(auto, using(crate::proofs::Noting::stamp_over))]
    pub(crate) fn stamp_of<R: Lookup>(
        &self,
        from: &mut R,
        name: Name,
    ) -> Result<Option<i64>, KeepFault>
        ensures reads { ReadsBy R.Lookup from.old from.new result (IsStampOver self.now name) }
        ensures spares { IsErrOf result WantOfMemory → ⊥ }
    {
        match self.changed_stamp(&name) {
            Some(stamp) => Ok(stamp),
            None => from.stamp_of(name),
        }
    }

    /// The stamp of what stands anew under a name, None if the edit has not changed it.
    fn changed_stamp(&self, name: &Name) -> Option<Option<i64>>
        ensures { result ≡ option_map (option_map stamp_of) (map.get self.now.rows name.now) }
    {
        stamp_in(&self.rows, name)
    }

    /// What stands anew under a name, None if the edit has not changed it.
    fn changed(&self, name: &Name) -> Result<Option<Option<Row>>, Memory>
        ensures row { IfOk result (λ row. row ≡ map.get self.now.rows name.now) }
        ensures named { IfOk result (λ row. IfSome row (λ made. IfSome made (λ row. name_of row ≡ name.now))) }
    {
        changed_in(&self.rows, name)
    }

    /// For proofs alone: what the edit asks for is what a collection can take.
    pub(crate) fn fits(&self)
        ensures { IsFitting self.now }
    {
        let _seen = self.schema;
    }

    /// Puts the row under its name. Rows under the names of graves are passed over at the end.
    pub fn put(&mut self, row: Row) -> Result<(), Memory>
        ensures ok { OnOk result (self.new ≡ put_over row self.old) }
        ensures err { OnErr result (self.new ≡ self.old) }
    {
        let name = row.name();
        set_in(&mut self.rows, name, Some(row))?;
        return Ok(());
    }

    /// Removes the row of this name, if there is one.
    pub fn remove(&mut self, name: Name) -> Result<(), Memory>
        ensures ok { OnOk result (self.new ≡ removed_over name self.old) }
        ensures err { OnErr result (self.new ≡ self.old) }
    {
        set_in(&mut self.rows, name, None)?;
        return Ok(());
    }

    /// A copy of the settings as the edit has them so far.
    pub fn conf<R: Lookup>(&self, from: &mut R) -> Result<Conf, KeepFault>
        requires held { (R.keeping from.old).headed.current ≡ true }
        ensures reads { ReadsBy R.Lookup from.old from.new result (IsConfOver self.now) }
        ensures range { R.checks ≡ true → IfOk result IsConfInRange }
    {
        match &self.conf {
            Some(conf) => {
                let copy = conf.copy()?;
                return Ok(copy);
            }
            None => return held_conf(from),
        }
    }

    /// Puts these settings in place of those that are held.
    pub fn set_conf(&mut self, conf: Conf)
        requires { IsConfInRange conf }
        ensures { self.new ≡ conf_over conf self.old }
    {
        self.conf = Some(conf);
    }

    /// Adds a tag of this name, if none is held.
    pub fn add_tag(&mut self, name: Text) -> Result<(), Memory>
        requires { IsTagName name }
        ensures ok { OnOk result (self.new ≡ tag_over name self.old) }
        ensures err { OnErr result (self.new ≡ self.old) }
    {
        self.tags.push(name)?;
        return Ok(());
    }

    /// Changes the schema: the end of the edit empties the undo list, and the next sync is a full one.
    pub fn change_schema(&mut self)
        ensures { self.new ≡ schema_over self.old }
    {
        self.schema = true;
    }
}

/// A copy of the settings of the collection that is held.
fn held_conf<R: Lookup>(from: &mut R) -> Result<Conf, KeepFault>
    requires held { (R.keeping from.old).headed.current ≡ true }
    ensures reads { ReadsBy R.Lookup from.old from.new result (λ h conf. IfSome h.head (λ head. conf ≡ head.conf)) }
    ensures range { R.checks ≡ true → IfOk result IsConfInRange }
{
    let Some(head) = from.head()? else {
        unreachable!();
    };
    Ok(head.conf)
}

/// A copy of what stands under the name.
fn changed_in(
    rows: &BTreeMap<Name, Option<Row>>,
    name: &Name,
) -> Result<Option<Option<Row>>, Memory>
    ensures { IfOk result (λ row. row ≡ entry_at rows.now.entries name.now) }
{
    match rows.get(name) {
        Some(row) => {
            let copy = copy_row(row)?;
            Ok(Some(copy))
        }
        None => Ok(None),
    }
}

/// The stamp of what stands under the name.
fn stamp_in(rows: &BTreeMap<Name, Option<Row>>, name: &Name) -> Option<Option<i64>>
    ensures { result ≡ option_map (option_map stamp_of) (entry_at rows.now.entries name.now) }
{
    match rows.get(name) {
        Some(row) => Some(row_stamp(row)),
        None => None,
    }
}

/// The stamp of the row, if there is one.
fn row_stamp(row: &Option<Row>) -> Option<i64>
    ensures { result ≡ option_map stamp_of row.now }
{
    match row {
        Some(row) => Some(row.stamp()),
        None => None,
    }
}

/// Whether anything is noted under the name.
pub(crate) fn has_in(rows: &BTreeMap<Name, Option<Row>>, name: &Name) -> bool
    ensures { result ≡ is_some (entry_at rows.now.entries name.now) }
{
    rows.contains_key(name)
}

/// An equal row, if there is one.
fn copy_row(row: &Option<Row>) -> Result<Option<Row>, Memory>
    ensures { IfOk result (λ made. made ≡ row.now) }
{
    match row {
        Some(row) => {
            let copy = row.copy()?;
            Ok(Some(copy))
        }
        None => Ok(None),
    }
}

/// Puts this under the name, in place of what stands there.
fn set_in(
    rows: &mut BTreeMap<Name, Option<Row>>,
    name: Name,
    row: Option<Row>,
) -> Result<(), Memory>
    ensures ok { OnOk result (IsSet rows.old.entries name row rows.new.entries) }
    ensures err { OnErr result (rows.new.entries ≡ rows.old.entries) }
{
    let old = rows.insert(name, row)?;
    drop(old);
    Ok(())
}
