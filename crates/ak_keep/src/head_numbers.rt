ghost use Rattle.std.specs.Prelude.{◌≡◌};
ghost use Rattle.ak_keep.specs.HeadNumbers.{numbers_of};

use ak_base::Head;

/// The numbers of a head: all of it but `conf` and the tags, so that a copy takes no memory.
#[derive(Clone, Copy, Debug, PartialEq, Eq)]
pub struct Numbers {
    /// The second at which the collection's first day begins.
    pub crt: i64,
    /// When the collection was changed last, in milliseconds.
    pub moment: i64,
    /// When its schema was changed last, in milliseconds.
    pub schema: i64,
    /// The usn that the next sync gives.
    pub usn: i64,
    /// When it was synced last, in milliseconds, or 0.
    pub last_sync: i64,
}

impl Numbers {
    /// Those of this head.
    pub fn of(head: &Head) -> Numbers
        ensures { result ≡ numbers_of head.now }
    {
        Numbers {
            crt: head.crt,
            moment: head.moment,
            schema: head.schema,
            usn: head.usn,
            last_sync: head.last_sync,
        }
    }
}
