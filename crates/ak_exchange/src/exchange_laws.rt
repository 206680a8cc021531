// What a device has settled once all is asked but the finish.
ghost use Rattle.ak_device.specs.Devices.{IsSettledTo, received};
ghost use Rattle.ak_device.specs.Settlings.{taken_and_settled};
ghost use Rattle.ak_exchange.specs.Phases.{held_by};
ghost use Rattle.ak_keep.specs.Collections.{Collection};
ghost use Rattle.ak_session.specs.Plans.{planned_check};
ghost use Rattle.ak_session.specs.Replies.{all_replied};
ghost use Rattle.ak_session.specs.Sessions.{MaySync};

/// If a device and a server may sync, what the device sent up to its sanity check is all that it had to send: each row and
/// each tag that had no usn has the server's then.
#[tactic(auto, using(crate::proofs::SentRows::held_settled))]
pub fn all_is_settled()
    ensures { (c s : Collection) → MaySync c s → IsSettledTo s.head.usn
        (received s.head.usn (all_replied s (planned_check c s)) (held_by c))
        (taken_and_settled s.head.usn (all_replied s (planned_check c s)) (planned_check c s) (held_by c)) }
{}
