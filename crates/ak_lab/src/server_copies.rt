// The server's collection, copied.
ghost use Rattle.std.specs.Prelude.{◌≡◌, true, Some, IfOk};
ghost use Rattle.ak_keep.specs.Collections.{Collection};
ghost use Rattle.ak_lab_devices.specs.Devices.{as_downloaded};
ghost use Rattle.ak_lab_devices.specs.RestingKeepers.{kept_of};
ghost use Rattle.ak_lab_devices.specs.Shows.{shown_lines};
ghost use Rattle.ak_lab_lines.specs.LabTexts.{counts_text};
ghost use Rattle.ak_session.specs.Answers.{counts_of};
ghost use Rattle.ak_sync_in_memory.specs.Copies.{IsViewed, committed_in};
ghost use Rattle.ak_sync_in_memory.specs.Entries.{health_in};

use ak_base::{List, Memory, Text};
use ak_lab_devices::{HeldCollection, unfailed};
use ak_lab_lines::{Shown, write_counts};
use ak_sync_in_memory::{LoggedServer, view_all};
use std::alloc::Global;

/// A copy of the collection that is committed on the server. It is read by views.
pub(crate) fn copy_committed(
    alloc: Global,
    server: &mut LoggedServer,
) -> Result<HeldCollection, Memory>
    requires calm { (health_in server.old).calm ≡ true }
    ensures copy { IfOk result (λ held. (c : Collection) × (committed_in server.old ≡ Some c) × (held ≡ kept_of c)) }
    ensures viewed { IsViewed server.old server.new }
    ensures calm { (health_in server.new).calm ≡ true }
{
    let opening = unfailed(view_all(alloc, server))?;
    HeldCollection::of(alloc, opening)
}

/// The same for a new device: what it synced last is what it copied.
pub(crate) fn copy_for_device(
    alloc: Global,
    server: &mut LoggedServer,
) -> Result<HeldCollection, Memory>
    requires calm { (health_in server.old).calm ≡ true }
    ensures copy { IfOk result (λ held. (c : Collection) × (committed_in server.old ≡ Some c)
        × (held ≡ kept_of (as_downloaded c))) }
    ensures viewed { IsViewed server.old server.new }
    ensures calm { (health_in server.new).calm ≡ true }
{
    let mut opening = unfailed(view_all(alloc, server))?;
    opening.head.last_sync = opening.head.moment;
    HeldCollection::of(alloc, opening)
}

/// The lines of what is shown of the server's collection.
pub(crate) fn shown_of_server(
    alloc: Global,
    server: &mut LoggedServer,
    what: Shown,
) -> Result<List<Text>, Memory>
    requires calm { (health_in server.old).calm ≡ true }
    ensures shown { IfOk result (λ texts. (c : Collection) × (committed_in server.old ≡ Some c) × (texts ≡ shown_lines what c)) }
    ensures viewed { IsViewed server.old server.new }
    ensures calm { (health_in server.new).calm ≡ true }
{
    let mut copy = copy_committed(alloc, server)?;
    copy.shown(alloc, what)
}

/// How many rows of each kind the server's collection holds, as a line.
pub(crate) fn counted_of_server(alloc: Global, server: &mut LoggedServer) -> Result<Text, Memory>
    requires calm { (health_in server.old).calm ≡ true }
    ensures counted { IfOk result (λ text. (c : Collection) × (committed_in server.old ≡ Some c)
        × (text ≡ counts_text (counts_of c.rows))) }
    ensures viewed { IsViewed server.old server.new }
    ensures calm { (health_in server.new).calm ≡ true }
{
    let mut copy = copy_committed(alloc, server)?;
    let counts = copy.counts()?;
    write_counts(alloc, &counts)
}
