// What holds of the grammar and of hits, apart from the program.
ghost use Rattle.std.specs.Prelude.{◌≡◌, ◌≢◌, ◌&&◌, ◌||◌, ℕ, ℤ, Bool, true, false, not, List, [], map, slice_get, None, IfSome};
ghost use Rattle.std.specs.List.Sorted.{IsStrictlySortedBy};
ghost use Rattle.std.specs.Ordering.{nat_cmp};
ghost use Rattle.ak_base.specs.declared.days.Day.{Day};
ghost use Rattle.ak_keep.specs.Collections.{Rows, StandsUnderNames};
ghost use Rattle.ak_search.specs.AllFaults.{all_faults};
ghost use Rattle.ak_search.specs.Grammar.{ReadsSearch, first_fault, place_of};
ghost use Rattle.ak_search.specs.Holds.{is_listed, cards, hits};
ghost use Rattle.ak_search.specs.Meanings.{meets, followed, has_no_or, walk};
ghost use Rattle.ak_search.specs.Trees.{Tree, End, Asks, Group, Either, pieces_of};
ghost use Rattle.ak_search.specs.declared.faults.SearchFault.TheVariants as faults;
ghost use Rattle.ak_search.specs.declared.terms.Term.{Term};

/// No text has two trees.
#[tactic(auto, using(crate::proofs::Grammars::one_tree))]
pub fn one_tree()
    ensures { (text : List ℕ) (one other : Tree) → ReadsSearch text one → ReadsSearch text other → one ≡ other }
{}

/// A text without a fault has a tree.
#[tactic(auto, using(crate::proofs::Grammars::has_tree))]
pub fn tree_without_fault()
    ensures { (text : List ℕ) → first_fault text ≡ None → (tree : Tree) × ReadsSearch text tree }
{}

/// A text with a tree has no fault.
#[tactic(auto, using(crate::proofs::Grammars::no_fault))]
pub fn no_fault_with_tree()
    ensures { (text : List ℕ) (tree : Tree) → ReadsSearch text tree → first_fault text ≡ None }
{}

/// The places of a text's faults ascend, so no two stand at one place, and the first of them is the fault of the text.
#[tactic(auto, using(crate::proofs::Orders::faults_sorted, crate::proofs::Orders::first_of_faults))]
pub fn least_fault()
    ensures ascend { (text : List ℕ) → IsStrictlySortedBy nat_cmp (map place_of (all_faults text)) }
    ensures first { (text : List ℕ) → first_fault text ≡ slice_get (all_faults text) 0 }
{}

/// The first fault of a text is never that memory ran out.
#[tactic(auto, using(crate::proofs::Faulting::of_text))]
pub fn faults_are_of_the_text()
    ensures { (text : List ℕ) → IfSome (first_fault text) (λ fault. fault ≢ faults.Memory) }
{}

/// Walked through from front to back, a tree asks the same.
#[tactic(auto, using(crate::proofs::Walking::walked))]
pub fn walked()
    ensures { (holds : Term → Bool) (tree : Tree) → walk holds [] false true (pieces_of tree) ≡ meets holds tree }
{}

/// `a or b` is met where `a` or `b` is.
#[tactic(auto, using(crate::proofs::Walking::either_meets))]
pub fn either_meets()
    ensures { (holds : Term → Bool) (one other : Tree) → meets holds (followed one (Either other)) ≡ (meets holds one || meets holds other) }
{}

/// `a b` is met where both are, if no `or` stands outside groups.
#[tactic(auto, using(crate::proofs::Walking::both_meet))]
pub fn both_meet()
    ensures { (holds : Term → Bool) (one other : Tree) → has_no_or one ≡ true → has_no_or other ≡ true → meets holds (followed one other) ≡ (meets holds one && meets holds other) }
{}

/// `-(a)` is met where `a` is not.
#[tactic(auto, using(crate::proofs::Walking::none_meets))]
pub fn none_meets()
    ensures { (holds : Term → Bool) (tree : Tree) → meets holds (Group true tree End) ≡ not (meets holds tree) }
{}

/// The empty search finds every card.
#[tactic(auto, using(crate::proofs::Sets::all_hit))]
pub fn all_hit()
    ensures { (held : Rows) (day : Day) → hits held day End ≡ cards held }
{}

/// The hits of `a or b` are the union of both.
#[tactic(auto, using(crate::proofs::Sets::either_hits))]
pub fn either_hits()
    ensures { (held : Rows) (day : Day) (one other : Tree) (id : ℤ) → StandsUnderNames held → is_listed id (hits held day (followed one (Either other))) ≡ (is_listed id (hits held day one) || is_listed id (hits held day other)) }
{}

/// The hits of `a b` are the intersection of both, if no `or` stands outside groups.
#[tactic(auto, using(crate::proofs::Sets::both_hit))]
pub fn both_hit()
    ensures { (held : Rows) (day : Day) (one other : Tree) (id : ℤ) → StandsUnderNames held → has_no_or one ≡ true → has_no_or other ≡ true → is_listed id (hits held day (followed one other)) ≡ (is_listed id (hits held day one) && is_listed id (hits held day other)) }
{}

/// The hits of `-(a)` are all cards but those of `a`, and so it is of a single term without parentheses.
pub fn other_hits()
    ensures group { (held : Rows) (day : Day) (tree : Tree) (id : ℤ) → StandsUnderNames held → is_listed id (hits held day (Group true tree End)) ≡ (is_listed id (cards held) && not (is_listed id (hits held day tree))) }
    ensures term { (held : Rows) (day : Day) (term : Term) (id : ℤ) → StandsUnderNames held → is_listed id (hits held day (Asks true term End)) ≡ (is_listed id (cards held) && not (is_listed id (hits held day (Asks false term End)))) }
{}
