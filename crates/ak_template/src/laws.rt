// What holds of the grammar and of pages, apart from the program.
ghost use Rattle.std.specs.Prelude.{◌≡◌, ◌<◌, ◌∷◌, ◌++◌, [], ℕ, List, map, false, codes, Some, None};
ghost use Rattle.std.specs.Fmt.{decimal};
ghost use Rattle.ak_template.specs.Grammar.{IsTemplate, IsFaultOf, first_fault};
ghost use Rattle.ak_filters.specs.Meanings.{Meaning};
ghost use Rattle.ak_template.specs.Laws.{FaultsAreTags, UnclosedGoesOn, TurnsAreOccurrences, UnaskedMayGo};
ghost use Rattle.ak_template.specs.Pages.{page, walk};
ghost use Rattle.ak_template.specs.Pieces.{Piece, has_tag, pieces, tag_of, trimmed, words_at};
ghost use Rattle.ak_template.specs.Trees.{Tree, tree_steps, written};
ghost use Rattle.ak_base.specs.Cuts.{has};
ghost use Rattle.ak_template.specs.Clozes.{parts, parts_written, AreGaps};
ghost use Rattle.ak_template.specs.declared.clozes.Part.TheVariants as variants;
ghost use Rattle.ak_template.specs.declared.faces.Face.{Face};
ghost use Rattle.ak_template.specs.declared.faults.TemplateFault.{TemplateFault};

/// No text has two trees.
#[tactic(auto, using(crate::proofs::Grammars::one_tree))]
pub fn one_tree()
    ensures { (text : List ℕ) (one other : Tree) → IsTemplate text one → IsTemplate text other → one ≡ other }
{}

/// A text without a fault has a tree.
#[tactic(auto, using(crate::proofs::Grammars::has_tree))]
pub fn tree_without_fault()
    ensures { (text : List ℕ) → first_fault text ≡ None → (tree : Tree) × IsTemplate text tree }
{}

/// A text with a tree has no fault.
#[tactic(auto, using(crate::proofs::Grammars::no_fault))]
pub fn no_fault_with_tree()
    ensures { (text : List ℕ) (tree : Tree) → IsTemplate text tree → first_fault text ≡ None }
{}

/// The first fault of a text is one of the text, never that memory ran out, and it is inside the text.
pub fn faults_are_of_the_text()
    ensures { (text : List ℕ) (fault : TemplateFault) → first_fault text ≡ Some fault → IsFaultOf text fault }
{}

/// An empty tag, a wrong close tag or a section that is too deep is the fault of its tag alone: the text before it can be
/// continued to a template, and no text that begins with it and its tag is one.
pub fn faults_are_tags()
    ensures { FaultsAreTags }
{}

/// A text with an unclosed section can be continued to a template, unless it ends in an opened tag.
pub fn unclosed_sections_go_on()
    ensures { UnclosedGoesOn }
{}

/// A tree that some text has, written out, is the tree of what was written.
#[tactic(auto, using(crate::proofs::Writing::read_again))]
pub fn written_is_read()
    ensures { (text : List ℕ) (tree : Tree) → IsTemplate text tree → IsTemplate (written tree) tree }
{}

/// A page taken step by step, from front to back, is the page of the tree.
#[tactic(auto, using(crate::proofs::Walking::walked))]
pub fn page_by_steps()
    ensures { (face : Face) (tree : Tree) (all : List Meaning) → walk face 0 (tree_steps tree) all ≡ page face tree all }
{}

/// On a page without a fault each filter is applied once for each shown occurrence of its name: its turn rises by
/// their number.
pub fn turns_by_occurrences()
    ensures { TurnsAreOccurrences }
{}

/// A page that asks for no filter of a name is the same after the first filter of that name was dropped: its text or its fault, and
/// the turns of the others. So a dropped filter is missed only where a page asks for it.
#[tactic(auto, using(crate::proofs::Dropped::unasked_may_go))]
pub fn unasked_filters_may_go()
    ensures { UnaskedMayGo }
{}

/// The parts of a field written out are the field.
#[tactic(auto, using(crate::proofs::Numbering::written_back))]
pub fn parts_are_the_field()
    ensures { (text : List ℕ) → parts_written (parts text) ≡ text }
{}

/// Each cloze ends at the first `}}` after its `::`, and has a number from 1 to 500.
#[tactic(auto, using(crate::proofs::Numbering::all_gaps))]
pub fn clozes_end_first()
    ensures { (text : List ℕ) → AreGaps (parts text) }
{}

/// A field without `{{c` is one part, which shows as it is.
#[tactic(auto, using(crate::proofs::Clozing::parts_plain))]
pub fn plain_fields_stay()
    ensures { (text : List ℕ) → has (codes "{{c") text ≡ false → parts text ≡ variants.Bare text ∷ [] }
{}

/// A `{{cN::` with a number from 1 to 500, after words without a `{{c`, begins a cloze, which ends at the next `}}`. What comes after it
/// is read the same way.
pub fn a_cloze_is_found()
    ensures { (before inside after : List ℕ) (n : ℕ) → 0 < n → n < 501 →
        has (codes "{{c") before ≡ false → has (codes "}}") (inside ++ codes "}") ≡ false →
        parts (before ++ (codes "{{c" ++ (decimal n ++ (codes "::" ++ (inside ++ (codes "}}" ++ after)))))) ≡ variants.Bare before ∷ (variants.Gap n inside ∷ parts after) }
{}

/// A `{{` after words without one begins a tag, which ends at the next `}}`. What comes after it is read the same way.
pub fn a_tag_is_read()
    ensures { (words inside after : List ℕ) → has (codes "{{") (words ++ codes "{") ≡ false → has (codes "}}") (inside ++ codes "}") ≡ false →
        map (λ (p : Piece). p.1) (pieces (words ++ (codes "{{" ++ (inside ++ (codes "}}" ++ after))))) ≡ map (λ (p : Piece). p.1) (words_at 0 words) ++ (tag_of (trimmed inside) ∷ map (λ (p : Piece). p.1) (pieces after)) }
{}

/// A text without a tag is plain words.
pub fn plain_text_is_words()
    ensures { (text : List ℕ) → has_tag text ≡ false → pieces text ≡ words_at 0 text }
{}
