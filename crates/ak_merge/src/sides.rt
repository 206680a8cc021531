/// Which side of a sync takes a row. Of two rows that are as new, the server's stands on both.
#[derive(Clone, Copy, Debug, PartialEq, Eq)]
pub enum Side {
    /// The one that asks: it gives way to a row that is not older than its own.
    Device,
    /// The one that answers: it gives way only to a newer row.
    Server,
}
