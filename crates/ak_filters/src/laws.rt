// What holds of stripped texts and of readings, apart from the program.
ghost use Rattle.std.specs.Prelude.{◌≡◌, ◌++◌, ◌∷◌, ℕ, List, true, false, codes};
ghost use Rattle.ak_base.specs.Cuts.{has, front, behind};
ghost use Rattle.ak_filters.specs.Readings.{readings_shown, signed_text, is_base, is_inside, IsSignAfter};
ghost use Rattle.ak_filters.specs.Strips.{removed, spaced, stripped};
ghost use Rattle.ak_filters.specs.declared.readings.ReadingPart.{ReadingPart};

/// A stripped text has nothing more to strip.
#[tactic(auto, using(crate::proofs::Stripped::stripped_again))]
pub fn strip_again()
    ensures { (text : List ℕ) → stripped (stripped text) ≡ stripped text }
{}

/// A text without `<` and without `&nbsp;` stays as it is.
#[tactic(auto, using(crate::proofs::Stripped::plain_kept))]
pub fn plain_text_stays()
    ensures { (text : List ℕ) → has (codes "<") text ≡ false → has (codes "&nbsp;") text ≡ false → stripped text ≡ text }
{}

/// The first `<` that has a `>` after it goes, with all up to that `>`; what comes after it is read the same way. If no `>` comes after
/// the first `<`, nothing goes.
pub fn a_piece_goes()
    ensures piece { (text : List ℕ) → has (codes ">") (behind (codes "<") text) ≡ true →
        removed false text ≡ front (codes "<") text ++ removed false (behind (codes ">") (behind (codes "<") text)) }
    ensures none { (text : List ℕ) → has (codes ">") (behind (codes "<") text) ≡ false → removed false text ≡ text }
{}

/// A space comes in place of the first `&nbsp;`; what comes after it is read the same way. A text without one stays.
pub fn a_space_comes()
    ensures space { (text : List ℕ) → has (codes "&nbsp;") text ≡ true →
        spaced 0 text ≡ front (codes "&nbsp;") text ++ (32 ∷ spaced 0 (behind (codes "&nbsp;") text)) }
    ensures none { (text : List ℕ) → has (codes "&nbsp;") text ≡ false → spaced 0 text ≡ text }
{}

/// A text without a `]` has no reading, and stays as it is.
#[tactic(auto, using(crate::proofs::Reading::unended_kept))]
pub fn text_without_readings_stays()
    ensures { (part : ReadingPart) (text : List ℕ) → has (codes "]") text ≡ false → readings_shown part text ≡ text }
{}

/// A base and an inside after words without a `[` are shown as a reading; what comes after them is read the same way. The words
/// end in the sign that ends the base on its left, if there are any.
pub fn a_reading_is_shown()
    ensures { (part : ReadingPart) (words sign base inside others : List ℕ) → IsSignAfter words sign → has (codes "[") words ≡ false → is_base base ≡ true → is_inside inside ≡ true →
        readings_shown part ((words ++ (sign ++ base)) ++ (codes "[" ++ (inside ++ (codes "]" ++ others)))) ≡ words ++ (signed_text part sign base inside ++ readings_shown part others) }
{}
