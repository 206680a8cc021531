ghost use Rattle.std.specs.Prelude.{◌≡◌, ◌≢◌, ◌⊎◌, true, Ok, Err, IfOk, IfErr, OnOk, OnErr};
ghost use Rattle.ak_faults.specs.Causes.{GoesOn};
ghost use Rattle.ak_keep.specs.Keepers.{IsCaused, is_marked, back, committed};
ghost use Rattle.ak_keep.specs.declared.keepers.KeepFault.{KeepFault as Fault};
ghost use Rattle.ak_keep.specs.declared.keepers.KeepFault.TheVariants.{Memory as WantOfMemory};

use crate::keepers::{KeepFault, Keeper};

/// Keeps the changes since the mark if they were made, else goes back to the mark.
///
/// The use: `keeper.mark()?; let made = change(keeper, ..); keep_or_back(keeper, made)`, with a function
/// `change` that may leave off at any refusal.
pub fn keep_or_back<K: Keeper, T: Drop, E: From<KeepFault>>(
    keeper: &mut K,
    made: Result<T, E>,
) -> Result<T, E>
    requires marked { is_marked (K.keeping keeper.old) ≡ true }
    ensures made { IfOk result (λ value. made ≡ Ok value) }
    ensures refused { IfErr made (λ error. result ≡ Err error) }
    ensures ok { OnOk result (K.keeping keeper.new ≡ committed (K.keeping keeper.old)) }
    ensures err { OnErr result (K.keeping keeper.new ≡ back (K.keeping keeper.old)) }
    ensures goes { GoesOn (K.health keeper.old) (K.health keeper.new) }

    // If the changes were made, it is refused for a fault of this call alone.
    ensures cause { IfErr result (λ error. (made ≡ Err error) ⊎ ((fault : Fault) × E.from_gives fault error × IsCaused (K.health keeper.old) (K.health keeper.new) fault × (K.spares_memory ≡ true → fault ≢ WantOfMemory))) }
{
    match made {
        Ok(value) => match keeper.commit() {
            Ok(()) => Ok(value),
            Err(fault) => {
                drop(value);
                Err(E::from(fault))
            }
        },
        Err(error) => {
            keeper.back();
            Err(error)
        }
    }
}
