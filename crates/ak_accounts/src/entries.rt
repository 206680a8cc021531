ghost use Rattle.std.specs.Prelude.{◌≡◌, ◌==◌, ℕ, length, map, codes, IfOk, IfErr, Some, None};
ghost use Rattle.std.specs.Option.{option_and_then, option_map};
ghost use Rattle.toml.specs.Data.{get_member, as_array, as_table};
ghost use Rattle.toml.specs.View.{view, table_view, items_view, array_view};
ghost use Rattle.ak_base.specs.Keys.{host_digits};
ghost use Rattle.ak_accounts.specs.Accounts.{listing_of, key_count, with_keys, text_at, account_name, listing_in, listing_at, listings_at, account_array, listings_in};

use crate::listings::{AccountsFault, ListedAccount};
use ak_base::{HostKey, Text};
use std::alloc::Global;
use toml::{Table, Value};

/// The accounts of a document.
pub(crate) fn accounts_in(
    alloc: Global,
    document: &Table,
) -> Result<Vec<ListedAccount>, AccountsFault>
    ensures ok { IfOk result (λ accounts. listings_in (table_view document.now) ≡ Some (map listing_of accounts.items)) }
    ensures refused { IfErr result (λ fault.
        fault ≡ AccountsFault.Refused → listings_in (table_view document.now) ≡ None) }
{
    match account_array(document) {
        Some(values) => accounts_at(alloc, values.as_slice()),
        None => Err(AccountsFault::Refused),
    }
}

/// The array of a document that has the key `account` alone.
fn account_array(document: &Table) -> Option<&Vec<Value>>
    ensures { option_map (λ values. array_view values.now) result ≡ account_array (table_view document.now) }
{
    if !has_keys(document, 1) {
        return None;
    }
    match value_at(document, "account") {
        Some(value) => value.as_array(),
        None => None,
    }
}

/// The accounts that these values tell, if each tells one.
fn accounts_at(alloc: Global, values: &[Value]) -> Result<Vec<ListedAccount>, AccountsFault>
    ensures ok { IfOk result (λ accounts. listings_at (items_view values.now) ≡ Some (map listing_of accounts.items)) }
    ensures refused { IfErr result (λ fault.
        fault ≡ AccountsFault.Refused → listings_at (items_view values.now) ≡ None) }
{
    let mut accounts = Vec::new(alloc);
    for value in values {
        let account = account_at(alloc, value)?;
        if accounts.push(account).is_err() {
            return Err(AccountsFault::Memory);
        }
    }
    Ok(accounts)
}

/// The account that a value tells: a table with three keys, a name, a host key and a file.
fn account_at(alloc: Global, value: &Value) -> Result<ListedAccount, AccountsFault>
    ensures ok { IfOk result (λ account. listing_at (view value.now) ≡ Some (listing_of account)) }
    ensures refused { IfErr result (λ fault. fault ≡ AccountsFault.Refused → listing_at (view value.now) ≡ None) }
{
    match table_of_three(value) {
        Some(entry) => account_in(alloc, entry),
        None => Err(AccountsFault::Refused),
    }
}

/// The value as a table of three keys.
fn table_of_three(value: &Value) -> Option<&Table>
    ensures { option_map (λ entry. table_view entry.now) result ≡ option_and_then (with_keys 3) (as_table (view value.now)) }
{
    match value.as_table() {
        Some(entry) if has_keys(entry, 3) => Some(entry),
        _ => None,
    }
}

/// The account that a table tells by its name, its key and its file.
fn account_in(alloc: Global, entry: &Table) -> Result<ListedAccount, AccountsFault>
    ensures ok { IfOk result (λ account. listing_in (table_view entry.now) ≡ Some (listing_of account)) }
    ensures refused { IfErr result (λ fault. fault ≡ AccountsFault.Refused → listing_in (table_view entry.now) ≡ None) }
{
    let Some(name) = name_in(entry) else {
        return Err(AccountsFault::Refused);
    };
    let Some(host) = host_in(entry) else {
        return Err(AccountsFault::Refused);
    };
    let Some(file) = text_at(entry, "file") else {
        return Err(AccountsFault::Refused);
    };
    Ok(ListedAccount {
        name: Text::of(alloc, name)?,
        host,
        file: Text::of(alloc, file)?,
    })
}

/// The name: 1 to 64 bytes.
fn name_in(entry: &Table) -> Option<&str>
    ensures { option_map (λ text. text.now) result ≡
        option_and_then account_name (text_at (codes "name") (table_view entry.now)) }
{
    match text_at(entry, "name") {
        Some(name) if 1 <= name.len() && name.len() <= 64 => Some(name),
        _ => None,
    }
}

/// The host key.
fn host_in(entry: &Table) -> Option<HostKey>
    ensures { option_map (λ key. key.digits) result ≡
        option_and_then host_digits (text_at (codes "key") (table_view entry.now)) }
{
    match text_at(entry, "key") {
        Some(key) => HostKey::of(key),
        None => None,
    }
}

/// The text at a key, if there is one.
fn text_at<'a>(entry: &'a Table, key: &str) -> Option<&'a str>
    ensures { option_map (λ text. text.now) result ≡ text_at key.now (table_view entry.now) }
{
    match value_at(entry, key) {
        Some(value) => value.as_str(),
        None => None,
    }
}

/// The value at a key, if there is one.
fn value_at<'a>(table: &'a Table, key: &str) -> Option<&'a Value>
    ensures { option_map (λ value. view value.now) result ≡ get_member key.now (table_view table.now) }
{
    table.get(key)
}

/// Whether a table has so many keys.
fn has_keys(table: &Table, count: usize) -> bool
    ensures { result ≡ (key_count (table_view table.now) == count) }
{
    table.len() == count
}
