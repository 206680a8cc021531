ghost use Rattle.std.specs.List.{All, IsDistinct};
ghost use Rattle.std.specs.Ordering.{eq_by_cmp};
ghost use Rattle.std.specs.Prelude.{◌≡◌, map, IfOk};
ghost use Rattle.ak_base.specs.Heads.{IsHeadInRange};
ghost use Rattle.ak_base.specs.Names.{name_cmp};
ghost use Rattle.ak_base.specs.Rows.{IsChecked, name_of};

use crate::desk_lines::obey_with;
use crate::heads::head_texts;
use crate::new_reviews::ReviewPlan;
use crate::resting_keepers::{head_at_rest, unfailed};
use crate::review_edits::add_reviews;
use crate::tables::{grave_texts, row_texts};
use ak_base::{List, Memory, Text};
use ak_desk_language::AnyLine;
use ak_desk_lines::Turn;
use ak_desk_texts::{DeskAnswer, LineRefusal};
use ak_edit::DeskFault;
use ak_filters::FieldFilter;
use ak_lab_lines::Shown;
use ak_memory::MemoryKeeper;
use ak_messages::SanityCounts;
use ak_openings::Opening;
use ak_sync_in_memory::keeper_with;
use ak_sync_rows::counts_of;
use ak_undo::UndoList;
use std::alloc::Global;
use std::marker::Model;

/// A collection in memory, seen as what its keeper keeps. Between two calls its keeper is at rest.
#[derive(Drop)]
pub struct HeldCollection {
    pub(crate) keeper: MemoryKeeper,
}

impl Model for HeldCollection {
    ghost use Rattle.std.specs.Coded.{codes};
    ghost use Rattle.std.specs.FinMap as map;
    ghost use Rattle.ak_keep.specs.Collections.{Holding};
    ghost use Rattle.ak_keep.specs.Marks.{WithMark};
    ghost use Rattle.ak_keep.specs.MemoryKeepers.{holding_code, kept_code};
    ghost use Rattle.ak_lab_devices.specs.RestingKeepers.{IsAtRest};

    ghost Value = { WithMark Holding };

    ghost coded = { kept_code (holding_code (map.code (Prim.hlevel codes) (Prim.hlevel codes)) (Prim.hlevel codes)) };

    ghost view = { λ held. held.keeper.kept };

    ghost invariant = { λ held. IsAtRest held.keeper };
}

impl HeldCollection {
    ghost use Rattle.std.specs.Prelude.{◌∷◌, [], List as Sequence, Some, pos, true};
    ghost use Rattle.std.specs.Result.{IsErrOf};
    ghost use Rattle.ak_any_lines.specs.AnyEnds.{AppliesToAny, EndsAnyLine};
    ghost use Rattle.ak_base.specs.Heads.{IsWithin};
    ghost use Rattle.ak_desk_language.specs.AnyLines.{IsAnyInRange};
    ghost use Rattle.ak_desk_texts.specs.declared.line_refusals.LineRefusal.TheVariants as refusals;
    ghost use Rattle.ak_edit.specs.declared.desk_faults.DeskFault.TheVariants as desks;
    ghost use Rattle.ak_filters.specs.Meanings.{Meaning};
    ghost use Rattle.ak_keep.specs.Collections.{Collection, IsId};
    ghost use Rattle.ak_keep.specs.Keepers.{all_known};
    ghost use Rattle.ak_lab_devices.specs.NewReviews.{EndsReviews};
    ghost use Rattle.ak_lab_devices.specs.RestingKeepers.{Holds, kept_of};
    ghost use Rattle.ak_lab_devices.specs.Shows.{shown_lines};
    ghost use Rattle.ak_session.specs.Answers.{counts_of};
    ghost use Rattle.ak_study.specs.DayStarts.{IsInDay};
    ghost use Rattle.ak_sync_in_memory.specs.Entries.{collection_in};

    /// This whole collection.
    pub fn of(alloc: Global, opening: Opening) -> Result<HeldCollection, Memory>
        requires checked { All IsChecked opening.rows }
        requires distinct { IsDistinct (eq_by_cmp name_cmp) (map name_of opening.rows) }
        requires range { IsHeadInRange opening.head }
        ensures { IfOk result (λ made. made ≡ kept_of (collection_in opening)) }
    {
        let keeper = keeper_with(alloc, opening)?;
        Ok(HeldCollection { keeper })
    }

    /// The lines of what is shown of it.
    pub fn shown(&mut self, alloc: Global, what: Shown) -> Result<List<Text>, Memory>
        ensures shown { IfOk result (λ texts. (c : Collection) × Holds self.old c × (texts ≡ shown_lines what c)) }
        ensures same { self.new ≡ self.old }
    {
        let head = head_at_rest(&mut self.keeper)?;
        match what {
            Shown::Rows(table) => unfailed(row_texts(alloc, &mut self.keeper, table)),
            Shown::Graves => unfailed(grave_texts(alloc, &mut self.keeper)),
            Shown::Head => head_texts(alloc, &head),
        }
    }

    /// How many rows of each kind are held.
    pub fn counts(&mut self) -> Result<SanityCounts, Memory>
        ensures counts { IfOk result (λ counts. (c : Collection) × Holds self.old c × (counts ≡ counts_of c.rows)) }
        ensures same { self.new ≡ self.old }
    {
        unfailed(counts_of(&mut self.keeper))
    }

    /// Does a line of the desk in its turn, without filters.
    pub fn obey(
        &mut self,
        undo: &mut UndoList,
        said: AnyLine,
        turn: Turn,
    ) -> Result<DeskAnswer, LineRefusal>
        requires moment { IsInDay turn.at }
        requires range { IsAnyInRange said }
        ensures ends { EndsAnyLine said turn (record { keeping = all_known self.old; steps = undo.old })
            (record { keeping = all_known self.new; steps = undo.new }) result }
        ensures filters { (turned : Sequence Meaning) × AppliesToAny said (all_known self.old) [] turned result }
        ensures unfailed { IsErrOf result (refusals.Desk desks.Failed) → ⊥ }
    {
        let mut filters: Vec<Box<dyn FieldFilter>> = Vec::new(undo.allocator());
        obey_with(&mut self.keeper, undo, said, turn, &mut filters)
    }

    /// Adds the reviews of a plan at a moment in milliseconds, as one edit.
    pub fn review(
        &mut self,
        undo: &mut UndoList,
        plan: ReviewPlan,
        at: i64,
    ) -> Result<(), DeskFault>
        requires card { IsId plan.card }
        requires ease { IsWithin (pos 0) (pos 4) plan.ease }
        ensures ends { EndsReviews at plan (all_known self.old) (all_known self.new) undo.old undo.new result }
        ensures unfailed { IsErrOf result desks.Failed → ⊥ }
    {
        add_reviews(&mut self.keeper, undo, plan, at)
    }
}
