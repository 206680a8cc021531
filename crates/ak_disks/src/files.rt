ghost use Rattle.std.specs.Prelude.{◌≡◌, ◌+◌, ◌<◌, ◌≤◌, [], IsOk, OnOk, drop, length, min, take, vec_capacity, vec_len};
ghost use Rattle.ak_disks.specs.Disks.{overwritten};

use std::alloc::AllocError;

/// Writes these bytes over what stands from this place on, and past the end; if the file ends before the place, at
/// its end.
pub fn overwrite(file: &mut Vec<u8>, place: usize, bytes: &[u8]) -> Result<(), AllocError>
    ensures ok { OnOk result (file.new.items ≡ overwritten place bytes.now file.old.items) }
    ensures len { OnOk result (vec_len file.new ≤ vec_len file.old + length bytes.now) }
    ensures capacity { vec_capacity file.old ≤ vec_capacity file.new }
    ensures succeeds { vec_len file.old + length bytes.now ≤ vec_capacity file.old → IsOk result }
{
    let start = place.min(file.len());
    let inside = bytes.len().min(file.len() - start);
    file[start..start + inside].copy_from_slice(&bytes[..inside]);
    file.extend_from_slice(&bytes[inside..])
}

/// So many bytes from this place on, or those of them that there are.
pub fn part(bytes: &[u8], from: usize, count: usize) -> &[u8]
    ensures { result.now ≡ take count (drop from bytes.now) }
{
    let start = from.min(bytes.len());
    let end = start + count.min(bytes.len() - start);
    &bytes[start..end]
}

/// Copies what fits to the front of `into`, and answers how many bytes these are.
pub fn copy_front(from: &[u8], into: &mut [u8]) -> usize
    ensures count { result ≡ min (length from.now) (length into.old) }
    ensures front { take result into.new ≡ take result from.now }
{
    let count = from.len().min(into.len());
    into[..count].copy_from_slice(&from[..count]);
    count
}

/// What stands from this place on.
pub fn rest(bytes: &[u8], from: usize) -> &[u8]
    ensures { result.now ≡ drop from bytes.now }
{
    &bytes[from.min(bytes.len())..]
}
