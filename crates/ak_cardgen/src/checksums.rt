ghost use Rattle.std.specs.Prelude.{◌≡◌, ◌≤ℤ◌, pos, IfOk};
ghost use Rattle.ak_cardgen.specs.Checksums.{first_four, checksum};

use ak_base::Memory;
use ak_filters::strip;
use sha1::Sha1;
use std::alloc::Global;

/// The checksum of a note whose first field is this text, as Anki's column `csum` keeps it: the first 8
/// hexadecimal digits of the SHA-1 of the stripped text, as a number.
pub fn csum(alloc: Global, first: &str) -> Result<i64, Memory>
    ensures sum { IfOk result (λ sum. sum ≡ checksum first.now) }

    // It is from 0 to 4,294,967,295.
    ensures low { IfOk result (λ sum. pos 0 ≤ℤ sum) }
    ensures high { IfOk result (λ sum. sum ≤ℤ pos 4_294_967_295) }
{
    let text = strip(alloc, first)?;
    Ok(first_four(text.as_str().as_bytes()) as i64)
}

/// The first four bytes of the SHA-1, as a number: the first counts most.
#[tactic(auto, unfolding(crate::specs::Checksums::first_four))]
fn first_four(bytes: &[u8]) -> u32
    ensures { result ≡ first_four bytes.now }
{
    let digest = Sha1::digest(bytes);
    u32::from_be_bytes([digest[0], digest[1], digest[2], digest[3]])
}
