// What opening an image of a journal gives, by the images that its calls may leave.
ghost use Rattle.std.specs.Prelude.{◌≡◌, ◌⊎◌, ◌++◌, ◌∷◌, [], ℕ, List, None, Some};
ghost use Rattle.ak_journal_forms.specs.Frames.{IsDamagedAt, StandsFor};
ghost use Rattle.ak_journals.specs.States.{StandsWith};

/// An image that stands for what was kept, or for the payload under way too, is opened as one of the two.
pub fn what_is_opened_was_kept_or_under_way()
    ensures kept { (payloads opened : List (List ℕ)) (image : List ℕ) → StandsWith None payloads image → StandsFor opened image → opened ≡ payloads }
    ensures under_way { (payloads opened : List (List ℕ)) (payload image : List ℕ) → StandsWith (Some payload) payloads image → StandsFor opened image
        → (opened ≡ payloads) ⊎ (opened ≡ payloads ++ payload ∷ []) }
{}

/// No such image is damaged.
pub fn no_image_is_damaged()
    ensures kept { (payloads : List (List ℕ)) (image : List ℕ) (place : ℕ) → StandsWith None payloads image → IsDamagedAt place image → ⊥ }
    ensures under_way { (payloads : List (List ℕ)) (payload image : List ℕ) (place : ℕ) → StandsWith (Some payload) payloads image → IsDamagedAt place image → ⊥ }
{}
