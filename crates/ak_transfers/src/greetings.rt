// How an upload and a download begin: a meta, and whether the server and the clocks let them go on.
ghost use Rattle.ak_transfers.specs.Greetings.{GreetsFirst};

use ak_client::{Outcome, second_of, test_clocks};
use ak_client_wire::{MetaSaid, Wire, ask};
use ak_exchange::{Ids, meta_request};
use ak_io::Clock;

/// Sends the meta, and tests what it says: whether the transfer may go on, and then the clocks.
pub(crate) fn greet<W: Wire, C: Clock>(
    wire: &mut W,
    clock: &mut C,
    ids: Ids,
) -> Result<MetaSaid, Outcome>
    ensures { GreetsFirst ids
        (record { line = record { health = W.health wire.old; wire = W.state wire.old }; moments = C.to_come clock.old })
        (record { line = record { health = W.health wire.new; wire = W.state wire.new }; moments = C.to_come clock.new }) result }
{
    let request = meta_request(ids);
    let meta: MetaSaid = ask(wire, &request)?;
    let at = clock.now();
    let second = second_of(at);
    test_clocks(meta, second)?;
    Ok(meta)
}
