// Laws of payloads, as the contracts of functions that do nothing.
ghost use Rattle.std.specs.Prelude.{◌≡◌, ◌++◌, ◌∷◌, [], ℕ, List, None, if◌then◌else◌};
ghost use Rattle.std.specs.FinMap.{get};
ghost use Rattle.std.specs.Option.{option_or};
ghost use Rattle.ak_base.specs.declared.names.Name.{Name};
ghost use Rattle.ak_keep.specs.Collections.{Holding, IsWellFormed};
ghost use Rattle.ak_journal_rows.specs.Changes.{IsOfForm, after_change, is_cut, left_by, nothing_held, row_put};
ghost use Rattle.ak_journal_rows.specs.Texts.{IsPayloadOf, LeadTo, LeadsLast};
ghost use Rattle.ak_journal_rows.specs.declared.changes.Change.{Change};

/// A payload is that of one change alone.
#[tactic(auto, using(crate::proofs::OneChange::one_payload))]
pub fn one_change_is_read()
    ensures { (payload : List ℕ) (one other : Change) → IsPayloadOf payload one → IsPayloadOf payload other → one ≡ other }
{}

/// After a change the rows that it puts are held under their names, nothing under the other names that it cuts, and
/// under all others what was left.
#[tactic(auto, using(crate::proofs::Folds::rows_after))]
pub fn a_change_says_what_is_held()
    ensures { (change : Change) (held : Holding) (name : Name) → IsOfForm change
        → get (after_change change held).rows name ≡ option_or (row_put change.put name) (if is_cut change.cut name then None else get (left_by change held) name) }
{}

/// What payloads lead to from nothing is a collection: each row under its name, and all of it in its ranges.
#[tactic(auto, using(crate::proofs::Folds::formed_from_nothing, crate::proofs::Folds::formed_after))]
pub fn changes_keep_a_collection()
    ensures payloads { (payloads : List (List ℕ)) (held : Holding) → LeadTo nothing_held payloads held → IsWellFormed held }
    ensures change { (change : Change) (held : Holding) → IsOfForm change → IsWellFormed held → IsWellFormed (after_change change held) }
{}

/// Payloads lead from what was held to one collection alone.
#[tactic(auto, using(crate::proofs::OneChange::one_end))]
pub fn payloads_lead_to_one_collection()
    ensures { (payloads : List (List ℕ)) (was one other : Holding) → LeadTo was payloads one → LeadTo was payloads other → one ≡ other }
{}

/// A payload more leads on to what its change makes, and so does the last of payloads. Each of them is that of a change.
#[tactic(auto, using(crate::proofs::Folds::one_more, crate::proofs::Folds::last_of, crate::proofs::Folds::each_is_read))]
pub fn each_payload_leads_on()
    ensures more { (payloads : List (List ℕ)) (payload : List ℕ) (change : Change) (was held : Holding) → LeadTo was payloads held → IsPayloadOf payload change
        → LeadTo was (payloads ++ payload ∷ []) (after_change change held) }
    ensures last { (payloads : List (List ℕ)) (payload : List ℕ) (was held : Holding) → LeadTo was (payloads ++ payload ∷ []) held → LeadsLast was payloads payload held }
    ensures each { (before behind : List (List ℕ)) (payload : List ℕ) (was held : Holding) → LeadTo was (before ++ payload ∷ behind) held
        → (change : Change) × IsPayloadOf payload change }
{}
