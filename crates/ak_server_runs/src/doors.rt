ghost use Rattle.std.specs.Prelude.{◌≡◌, is_ok};
ghost use Rattle.ak_faults.specs.Causes.{GoesOn, HasCause};
ghost use Rattle.ak_links.specs.Doors.{HasLent};
ghost use Rattle.ak_server_runs.specs.ServedDoors.{GivesTurn, ServesDoor};

use ak_http_links::serve_link;
use ak_io::{Clock, Failed};
use ak_keep::Keeper;
use ak_links::Door;
use ak_server::Server;
use std::alloc::Global;

/// Lets the door take links at an address, and serves those that come, at most so many: each once, and it is given back
/// before the next is taken. A link that fails ends alone.
pub(crate) fn serve_door<D: Door, K: Keeper, C: Clock>(
    alloc: Global,
    address: &str,
    turns: u64,
    door: &mut D,
    server: &mut Server<K>,
    clock: &mut C,
) -> Result<(), Failed>
    ensures serves { ServesDoor (record { left = D.Link.left; written = D.Link.written; link_health = D.Link.health; keeping = K.keeping; health = K.health })
        turns (D.state door.old) (D.state door.new)
        (record { accounts = server.old; moments = C.to_come clock.old })
        (record { accounts = server.new; moments = C.to_come clock.new }) (is_ok result) }
    ensures cause { HasCause (D.health door.old) (D.health door.new) result }
{
    // For the proof alone: it says that what the door has counted fits its count.
    let _counted = door.accepted();
    door.listen(address)?;
    for _turn in 0..turns {
        match door.accept()? {
            Some(link) => serve_turn(alloc, link, door, server, clock),
            None => return Ok(()),
        }
    }
    Ok(())
}

/// Serves a link that came by the door, and gives it back.
fn serve_turn<D: Door, K: Keeper, C: Clock>(
    alloc: Global,
    link: D::Link,
    door: &mut D,
    server: &mut Server<K>,
    clock: &mut C,
)
    requires lent { HasLent (D.state door.old) }
    ensures turn { GivesTurn (record { left = D.Link.left; written = D.Link.written; link_health = D.Link.health; keeping = K.keeping; health = K.health })
        link (D.state door.old) (D.state door.new)
        (record { accounts = server.old; moments = C.to_come clock.old })
        (record { accounts = server.new; moments = C.to_come clock.new }) }
    ensures goes { GoesOn (D.health door.old) (D.health door.new) }
{
    let mut link = link;
    let _end = serve_link(alloc, &mut link, server, clock);
    door.give_back(link);
}
