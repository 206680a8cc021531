// The ranges that a session tests.
ghost use Rattle.std.specs.Prelude.{ℕ, ℤ, List};
ghost use Rattle.std.specs.Bool.{Decides};
ghost use Rattle.ak_base.specs.Heads.{IsConfInRange, IsTagInRange, IsWithin, is_tag_name, is_within};
ghost use Rattle.ak_base.specs.Rows.{IsChecked};
ghost use Rattle.ak_base.specs.declared.heads.Conf.{Conf};
ghost use Rattle.ak_base.specs.declared.heads.Tag.{Tag};
ghost use Rattle.ak_base.specs.declared.rows.Row.{Row};
ghost use Rattle.ak_merge.specs.Tags.{IsTagName};
ghost use Rattle.ak_session.specs.Refusals.{is_checked, is_conf_in_range, is_tag_in_range};

/// Each test of a session finds exactly what is in its range.
pub fn ranges_are_tested()
    ensures number { (least most number : ℤ) → Decides (is_within least most number) (IsWithin least most number) }
    ensures row { (row : Row) → Decides (is_checked row) (IsChecked row) }
    ensures conf { (conf : Conf) → Decides (is_conf_in_range conf) (IsConfInRange conf) }
    ensures name { (name : List ℕ) → Decides (is_tag_name name) (IsTagName name) }
    ensures tag { (tag : Tag) → Decides (is_tag_in_range tag) (IsTagInRange tag) }
{}
