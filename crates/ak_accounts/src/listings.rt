ghost use Rattle.std.specs.Prelude.{◌≡◌};

use ak_base::{HostKey, Memory, Text};

/// An account as it is listed.
#[derive(Debug, Drop)]
pub struct ListedAccount {
    /// 1 to 64 bytes.
    pub name: Text,
    pub host: HostKey,
    /// Where its collection is kept. Any text, and two accounts may name the same.
    pub file: Text,
}

/// Why a text of accounts was not read.
#[derive(Clone, Copy, Debug, PartialEq, Eq)]
pub enum AccountsFault {
    /// It is not of the form.
    Refused,
    /// Out of memory.
    Memory,
}

impl From<Memory> for AccountsFault {
    ghost use Rattle.ak_accounts.specs.declared.listings.AccountsFault.TheVariants as faults;

    ghost from_gives = { λ memory fault. fault ≡ faults.Memory };

    fn from(_memory: Memory) -> AccountsFault {
        AccountsFault::Memory
    }
}
