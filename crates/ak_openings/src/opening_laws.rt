// What holds of each opening collection, apart from the program.
ghost use Rattle.std.specs.List.{All, IsDistinct};
ghost use Rattle.std.specs.Ordering.{eq_by_cmp};
ghost use Rattle.std.specs.Prelude.{ℤ, Bool, false, map};
ghost use Rattle.ak_base.specs.Heads.{IsHeadInRange};
ghost use Rattle.ak_base.specs.Names.{name_cmp};
ghost use Rattle.ak_base.specs.Rows.{IsChecked, name_of};
ghost use Rattle.ak_io.specs.Arrivals.{IsClockMoment};
ghost use Rattle.ak_keep.specs.Collections.{rows_of};
ghost use Rattle.ak_merge.specs.Commits.{IsCommitted};
ghost use Rattle.ak_merge.specs.Holdings.{row_under};
ghost use Rattle.ak_merge.specs.Soundness.{IsSound};
ghost use Rattle.ak_openings.specs.Openings.{IsOpening};
ghost use Rattle.ak_openings.specs.declared.whole_collections.Opening.{Opening};

/// Each row of an opening collection passes its check, no two have one name, its head is in its ranges, and it is sound. If its rows are
/// not to be sent, a server may hold it.
pub fn openings_are_sound_and_lawful()
    ensures checked { (ms : ℤ) (unsent : Bool) (made : Opening) → IsClockMoment ms → IsOpening ms unsent made → All IsChecked made.rows }
    ensures distinct { (ms : ℤ) (unsent : Bool) (made : Opening) → IsOpening ms unsent made → IsDistinct (eq_by_cmp name_cmp) (map name_of made.rows) }
    ensures range { (ms : ℤ) (unsent : Bool) (made : Opening) → IsClockMoment ms → IsOpening ms unsent made → IsHeadInRange made.head }
    ensures sound { (ms : ℤ) (unsent : Bool) (made : Opening) → IsOpening ms unsent made
        → IsSound (row_under (record { rows = rows_of made.rows; head = made.head })) }
    ensures lawful { (ms : ℤ) (made : Opening) → IsClockMoment ms → IsOpening ms false made
        → IsCommitted (record { rows = rows_of made.rows; head = made.head }) }
{}
