// Laws of the files of journals: what they stand for, and what a crash between two syncs makes of them.
ghost use Rattle.std.specs.Prelude.{◌≡◌, ◌≢◌, ◌+◌, ◌^◌, ◌<◌, ◌∷◌, ◌++◌, [], ℕ, List, drop, length, slice_index};
ghost use Rattle.ak_disks.specs.Disks.{IsTorn};
ghost use Rattle.ak_journal_forms.specs.Frames.{AreFrames, HasPayloadAt, IsDamagedAt, StandsFor, StandsTo, behind_gate, frames_length, payloads_in};

/// A file stands for one list of payloads: those that are found in it.
#[tactic(auto, using(crate::proofs::Readings::payloads_in_file))]
pub fn one_list_of_payloads()
    ensures { (payloads : List (List ℕ)) (file : List ℕ) → StandsFor payloads file → payloads_in file ≡ payloads }
{}

/// A file that stands for payloads is not damaged.
#[tactic(auto, using(crate::proofs::Readings::not_damaged))]
pub fn whole_files_are_not_damaged()
    ensures { (payloads : List (List ℕ)) (place : ℕ) (file : List ℕ) → StandsFor payloads file → IsDamagedAt place file → ⊥ }
{}

/// Frames before a file are payloads before those for which it stands.
#[tactic(auto, using(crate::proofs::FrameLists::stands_before))]
pub fn frames_stand_before_what_follows()
    ensures { (payloads more : List (List ℕ)) (front rest : List ℕ) (gate : ℕ) → AreFrames payloads front → StandsTo more gate rest
        → StandsTo (payloads ++ more) (length front + gate) (front ++ rest) }
{}

/// The gate of a payload stands behind the frames of those before it.
#[tactic(auto, using(crate::proofs::Places::payload_at))]
pub fn a_payload_stands_behind_those_before_it()
    ensures { (before behind : List (List ℕ)) (payload : List ℕ) (gate : ℕ) (file : List ℕ) → StandsTo (before ++ payload ∷ behind) gate file
        → HasPayloadAt (frames_length before) payload file }
{}

/// A write behind a gate that is not the byte 1, cut short or not, leaves it shut.
#[tactic(auto, using(crate::proofs::Images::write_behind))]
pub fn a_write_behind_a_gate_leaves_it_shut()
    ensures { (payloads : List (List ℕ)) (gate count : ℕ) (file image : List ℕ) → StandsTo payloads gate file → gate < length file → slice_index file gate ≢ 1
        → IsTorn (gate + 1) count file image → StandsTo payloads gate image }
{}

/// A write of the one byte at a gate, before a payload that is on the disk: the byte 1 opens the payload whole, and any
/// other leaves the gate shut.
#[tactic(auto, using(crate::proofs::Images::gate_open, crate::proofs::Images::gate_shut))]
pub fn a_gate_opens_the_payload_behind_it()
    ensures opens { (payloads : List (List ℕ)) (payload : List ℕ) (gate : ℕ) (file image : List ℕ) → StandsTo payloads gate file
        → drop (gate + 1) file ≡ behind_gate payload → length payload < 2 ^ 64 → IsTorn gate 1 file image → slice_index image gate ≡ 1
        → StandsTo (payloads ++ payload ∷ []) (gate + (9 + length payload)) image }
    ensures shuts { (payloads : List (List ℕ)) (payload : List ℕ) (gate : ℕ) (file image : List ℕ) → StandsTo payloads gate file
        → drop (gate + 1) file ≡ behind_gate payload → IsTorn gate 1 file image → slice_index image gate ≢ 1 → StandsTo payloads gate image }
{}

/// A lone byte at the end of a file is no open gate, whichever byte it is.
#[tactic(auto, using(crate::proofs::Images::lone_byte))]
pub fn a_lone_byte_is_no_open_gate()
    ensures { (payloads : List (List ℕ)) (gate : ℕ) (file image : List ℕ) → StandsTo payloads gate file → length file ≡ gate → IsTorn gate 1 file image
        → StandsTo payloads gate image }
{}
