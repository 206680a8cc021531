ghost use Rattle.std.specs.Prelude.{◌≡◌};

use ak_client_wire::{Said, Wire, WireEnd};
use ak_io::End;
use ak_messages::{Reply, Request};

/// A wire of one of two kinds, which is chosen once.
#[derive(Drop)]
pub enum EitherWire<A, B> {
    First(A),
    Second(B),
}

impl<A: End, B: End> End for EitherWire<A, B> {
    ghost use Rattle.ak_either_wires.specs.EitherWires.{of_either};

    ghost health = { of_either A.health B.health };

    fn faults(&self) -> u64 {
        match self {
            EitherWire::First(wire) => wire.faults(),
            EitherWire::Second(wire) => wire.faults(),
        }
    }
}

impl<A: Wire, B: Wire> Wire for EitherWire<A, B> {
    ghost use Rattle.ak_either_wires.specs.EitherWires.{either_kind, either_state};

    ghost kind = { either_kind A.kind B.kind };

    ghost state = { either_state A.state B.state };

    fn bad(&self) -> u64 {
        match self {
            EitherWire::First(wire) => wire.bad(),
            EitherWire::Second(wire) => wire.bad(),
        }
    }

    fn silent(&self) -> u64 {
        match self {
            EitherWire::First(wire) => wire.silent(),
            EitherWire::Second(wire) => wire.silent(),
        }
    }

    fn last(&self) -> Option<Said> {
        match self {
            EitherWire::First(wire) => wire.last(),
            EitherWire::Second(wire) => wire.last(),
        }
    }

    fn call(&mut self, request: &Request) -> Result<Reply, WireEnd> {
        match self {
            EitherWire::First(wire) => wire.call(request),
            EitherWire::Second(wire) => wire.call(request),
        }
    }
}
