use crate::logged_servers::LoggedServer;
use ak_base::{Memory, SessionKey};

/// What comes to a server between the calls of a wire: views, and the messages of others.
pub trait Between {
    ghost use Rattle.std.specs.Prelude.{Bool, ℕ};
    ghost use Rattle.ak_sync_in_memory.specs.Betweens.{ActEnd, ComesBetween, StaysIdle};
    ghost use Rattle.ak_sync_in_memory.specs.Entries.{LoggedState};

    /// What it makes of itself and of the server before the call of a number, whose request has a session key, and how
    /// that ended.
    ghost acts: { ℕ → ℕ → Self → Self → LoggedState → LoggedState → ActEnd → Type 0 };

    /// Whether it is known to do nothing.
    ghost idle: { Self → Bool };

    /// Acts on the server before the call of this number of a wire, counted from 0, whose request has this session key.
    /// It may send requests of other sessions, and again what came before; whatever it answers. It may set the line of
    /// what it sends, and sets back the one that was set.
    fn before(
        &mut self,
        call: u64,
        session: SessionKey,
        server: &mut LoggedServer,
    ) -> Result<(), Memory>
        ensures acts { acts call session.0 self.old self.new server.old server.new result }
        ensures comes { ComesBetween session.0 server.old server.new }
        ensures idle { StaysIdle (idle self.old) (idle self.new) server.old server.new };
}

/// Nothing comes in between.
#[derive(Clone, Copy, Debug, Drop)]
pub struct NothingBetween;

impl Between for NothingBetween {
    ghost use Rattle.ak_sync_in_memory.specs.Betweens.{always_idle, does_nothing};

    ghost acts = { does_nothing };

    ghost idle = { always_idle };

    fn before(
        &mut self,
        _call: u64,
        _session: SessionKey,
        _server: &mut LoggedServer,
    ) -> Result<(), Memory> {
        Ok(())
    }
}
