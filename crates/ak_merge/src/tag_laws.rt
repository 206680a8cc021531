// What is held of tags after some came.
ghost use Rattle.ak_base.specs.Limits.{last_usn};
ghost use Rattle.std.specs.Prelude.{◌≡◌, ℕ, ℤ, pos, negsuc, if◌then◌else◌, List, ◌++◌, Some, None};
ghost use Rattle.std.specs.Cmp.Lexicographic.{slice_cmp};
ghost use Rattle.std.specs.List.{All};
ghost use Rattle.std.specs.List.Sorted.{IsStrictlySortedBy};
ghost use Rattle.std.specs.Option.{option_map, option_or};
ghost use Rattle.std.specs.Ordering.{nat_cmp};
ghost use Rattle.ak_base.specs.Heads.{IsWithin, IsTagInRange, tag_names};
ghost use Rattle.ak_base.specs.declared.heads.Tag.{Tag};
ghost use Rattle.ak_keep.specs.declared.keepers.Wanted.{Wanted};
ghost use Rattle.ak_keep.specs.declared.keepers.Wanted.TheVariants.{Unsent, From};
ghost use Rattle.ak_merge.specs.Exchanges.{settled_number, settled_tags, tags_from, unsent_tags, wanted_tags};
ghost use Rattle.ak_merge.specs.Holdings.{tag_usn};
ghost use Rattle.ak_merge.specs.Tags.{IsTagName, has_name, tags_taken};

/// The tags are the union: each that was held has its own usn, and each other whose name came has the
/// usn of those that came.
#[tactic(auto, using(crate::proofs::TagLaws::tags_are_united))]
pub fn tags_are_united()
    ensures { (usn : ℤ) (names : List (List ℕ)) (tags : List Tag) (name : List ℕ) → tag_usn (tags_taken usn names tags) name ≡ option_or (tag_usn tags name) (if has_name names name then Some usn else None) }
{}

/// Tags that are distinct and ascend by the bytes of their names still do after others came.
#[tactic(auto, using(crate::proofs::TagLaws::tags_stay_ordered))]
pub fn tags_stay_ordered()
    ensures { (usn : ℤ) (names : List (List ℕ)) (tags : List Tag) → IsStrictlySortedBy (slice_cmp nat_cmp) (tag_names tags) → IsStrictlySortedBy (slice_cmp nat_cmp) (tag_names (tags_taken usn names tags)) }
{}

/// Tags that are in their ranges still are after others came whose names are of the right length.
pub fn tags_stay_in_range()
    ensures { (usn : ℤ) (names : List (List ℕ)) (tags : List Tag) → All IsTagName names → IsWithin (negsuc 0) last_usn usn → All IsTagInRange tags → All IsTagInRange (tags_taken usn names tags) }
{}

/// To take all names is to take the rest after the front.
#[tactic(auto, using(crate::proofs::TagLists::tag_parts_add_up))]
pub fn tag_parts_add_up()
    ensures { (usn : ℤ) (front rest : List (List ℕ)) (tags : List Tag) → tags_taken usn (front ++ rest) tags ≡ tags_taken usn rest (tags_taken usn front tags) }
{}

/// The names of the wanted tags are those of the tags that were not sent yet, or have at least a usn, if the tags
/// are distinct and ascend. They are names of tags.
pub fn wanted_tags_are_listed()
    ensures unsent { (tags : List Tag) (name : List ℕ) → IsStrictlySortedBy (slice_cmp nat_cmp) (tag_names tags) → has_name (wanted_tags Unsent tags) name ≡ unsent_tags tags name }
    ensures from { (usn : ℤ) (tags : List Tag) (name : List ℕ) → IsStrictlySortedBy (slice_cmp nat_cmp) (tag_names tags) → has_name (wanted_tags (From usn) tags) name ≡ tags_from usn tags name }
    ensures in_range { (want : Wanted) (tags : List Tag) → All IsTagInRange tags → All IsTagName (wanted_tags want tags) }
{}

/// Tags that are settled keep their names, their order and their ranges, and each that was sent its usn.
pub fn settled_tags_stay_lawful()
    ensures names { (usn : ℤ) (tags : List Tag) → tag_names (settled_tags usn tags) ≡ tag_names tags }
    ensures ordered { (usn : ℤ) (tags : List Tag) → IsStrictlySortedBy (slice_cmp nat_cmp) (tag_names tags) → IsStrictlySortedBy (slice_cmp nat_cmp) (tag_names (settled_tags usn tags)) }
    ensures in_range { (usn : ℤ) (tags : List Tag) → IsWithin (pos 0) last_usn usn → All IsTagInRange tags → All IsTagInRange (settled_tags usn tags) }
    ensures numbers { (usn : ℤ) (tags : List Tag) (name : List ℕ) → tag_usn (settled_tags usn tags) name ≡ option_map (settled_number usn) (tag_usn tags name) }
{}
