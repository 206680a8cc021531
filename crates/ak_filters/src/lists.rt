// The list of filters that a page asks. What a box means has no name of its own in the invariant of a loop, so the test
// of one box is a function of its own.
ghost use Rattle.std.specs.Prelude.{◌≡◌, ◌==◌, map};
ghost use Rattle.std.specs.Cmp.Lexicographic.{pointwise};
ghost use Rattle.ak_filters.specs.Lists.{has_filter, without_filter};

use crate::FieldFilter;

/// Drops the first filter of that name; the others keep their order and their turns. Whether there was one.
pub fn drop_filter(filters: &mut Vec<Box<dyn FieldFilter>>, name: &str) -> bool
    ensures filters { map (λ b. meaning b) filters.new.items ≡ without_filter name.now (map (λ b. meaning b) filters.old.items) }
    ensures held { result ≡ has_filter name.now (map (λ b. meaning b) filters.old.items) }
{
    for place in 0..filters.len() {
        if is_named(&filters[place], name) {
            filters.remove(place);
            return true;
        }
    }
    false
}

/// Whether the filter has that name.
fn is_named(filter: &Box<dyn FieldFilter>, name: &str) -> bool
    ensures { result ≡ pointwise ◌==◌ (meaning filter.now).name name.now }
{
    filter.name() == name
}
