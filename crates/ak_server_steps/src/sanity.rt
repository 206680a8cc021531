// The reply to a sanity check.
ghost use Rattle.std.specs.Prelude.{◌≡◌, ◌&&◌, not, is_some};
ghost use Rattle.ak_keep.specs.Readings.{ReadsBy};
ghost use Rattle.ak_merge.specs.Soundness.{first_fault};
ghost use Rattle.ak_session.specs.Answers.{counts_of, same_counts, sanity_reply};
ghost use Rattle.ak_messages.specs.MessageForms.{no_counts};

use ak_keep::{KeepFault, Readable};
use ak_merge::check;
use ak_messages::{SanityCounts, SanityReply};
use ak_sync_rows::{counts_of, same_counts};

/// The reply to a sanity check: good if the tables have no fault of the basic check and the counts sent are theirs.
pub(crate) fn sanity_of<R: Readable>(
    from: &mut R,
    sent: SanityCounts,
) -> Result<SanityReply, KeepFault>
    ensures reads { ReadsBy R.Lookup from.old from.new result (λ h reply. reply ≡ sanity_reply h.rows sent) }
{
    let fault = check(from)?;
    let held = counts_of(from)?;
    if fault.is_none() && same_counts(sent, held) {
        return Ok(SanityReply {
            good: true,
            fault: None,
            client: no_counts(),
            server: no_counts(),
        });
    }
    Ok(SanityReply {
        good: false,
        fault,
        client: sent,
        server: held,
    })
}

/// Seven zeros.
fn no_counts() -> SanityCounts
    ensures { result ≡ no_counts }
{
    SanityCounts {
        cards: 0,
        notes: 0,
        reviews: 0,
        graves: 0,
        models: 0,
        decks: 0,
        options: 0,
    }
}
