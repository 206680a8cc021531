ghost use Rattle.std.specs.Prelude.{◌≡◌, ◌&&◌, length, map, IfOk, IfErr, Some, None, not, true};
ghost use Rattle.std.specs.List.{list_any};
ghost use Rattle.std.specs.Option.{option_and_then};
ghost use Rattle.toml.specs.View.{table_view};
ghost use Rattle.toml.specs.Parse.{parse_document};
ghost use Rattle.ak_accounts.specs.Accounts.{Listing, Lists, listing_of, are_apart, shares};

use crate::entries::accounts_in;
use crate::listings::{AccountsFault, ListedAccount};
use ak_base::List;
use std::alloc::Global;

/// How many bytes a text of accounts has at most.
const TEXT_LIMIT: usize = 1_048_576;

/// The accounts that a text lists, in its order: at least one, and no two with one name or one key. The text is TOML, an
/// array `account` of tables with the keys `name`, `key` and `file`, and no key besides.
pub fn read_accounts(alloc: Global, text: &[u8]) -> Result<List<ListedAccount>, AccountsFault>
    ensures ok { IfOk result (λ accounts. Lists text.now (map listing_of accounts)) }

    // A text that lists accounts is refused only if memory runs out.
    ensures refused { IfErr result (λ fault.
        fault ≡ AccountsFault.Refused → (listings : List Listing) → Lists text.now listings → ⊥) }
{
    if text.len() > TEXT_LIMIT {
        return Err(AccountsFault::Refused);
    }
    let document = match toml::table_from_slice(alloc, text) {
        Ok(document) => document,
        Err(error) if error.is_memory() => return Err(AccountsFault::Memory),
        Err(_) => return Err(AccountsFault::Refused),
    };
    let accounts = accounts_in(alloc, &document)?;
    if accounts.is_empty() || !are_apart(accounts.as_slice()) {
        return Err(AccountsFault::Refused);
    }
    Ok(List::of(accounts))
}

/// Whether no two accounts have one name or one key.
fn are_apart(accounts: &[ListedAccount]) -> bool
    ensures { result ≡ are_apart (map listing_of accounts.now) }
{
    for (place, account) in accounts.iter().enumerate() {
        if is_shared(account, &accounts[place + 1..]) {
            return false;
        }
    }
    true
}

/// Whether another of these accounts has the name or the key of this one.
fn is_shared(account: &ListedAccount, others: &[ListedAccount]) -> bool
    ensures { result ≡ list_any (shares (listing_of account.now)) (map listing_of others.now) }
{
    for other in others {
        if account.name == other.name || account.host == other.host {
            return true;
        }
    }
    false
}
