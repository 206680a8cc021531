use ak_base::HostKey;
use ak_memory::MemoryKeeper;
use ak_server::Server;
use cases_keepers::failed;
use cases_lines::Unread;
use std::alloc::Global;

/// `faults KEY`: the count of faults of the account's keeper, or `none`.
pub fn faults_text(
    alloc: Global,
    server: &Server<MemoryKeeper>,
    key: &str,
) -> Result<String, Unread> {
    match server.faults(key_of(key)?) {
        Some(faults) => Ok(format!(in alloc; "{faults}")?),
        None => Ok(String::from_str(alloc, "none")?),
    }
}

/// `head KEY`: the moment, the schema moment and the usn of the account, or `none`.
pub fn head_text(
    alloc: Global,
    server: &mut Server<MemoryKeeper>,
    key: &str,
) -> Result<String, Unread> {
    match server.view_head(key_of(key)?) {
        Ok(Some(head)) => {
            let (moment, schema, usn) = (head.moment, head.schema, head.usn);
            Ok(format!(in alloc; "moment {moment} schema {schema} usn {usn}")?)
        }
        Ok(None) => Ok(String::from_str(alloc, "none")?),
        Err(fault) => failed(alloc, fault),
    }
}

fn key_of(text: &str) -> Result<HostKey, Unread> {
    HostKey::of(text).ok_or(Unread::Bad)
}
