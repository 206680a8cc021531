ghost use Rattle.std.specs.Prelude.{◌≡◌};
ghost use Rattle.std.specs.Bool.{Decides};
ghost use Rattle.ak_wire.specs.Budgets.{next, cost, IsWithinBudget};

/// The most bytes of memory that the tree of a body may take, by the count of `is_within_budget`: 4 GiB.
const TREE_BYTES: u64 = 4_294_967_296;

/// Where a byte of a JSON text stands.
#[derive(Clone, Copy)]
pub(crate) enum Scan {
    Outside,
    /// In a string.
    Inside,
    /// In a string, after a backslash.
    Escaped,
}

/// Whether the tree of a body is small enough to be made. An object's first member takes a node of about 860 bytes,
/// later ones about 120 each, and a value of a list 32 to 96. So a brace is counted as 1,000 bytes of the tree, a
/// bracket as 160, and a comma or a colon as 96; strings take what they have.
pub(crate) fn is_within_budget(body: &[u8]) -> bool
    ensures { Decides result (IsWithinBudget body.now) }
{
    let mut scan = Scan::Outside;
    let mut bytes = 0;
    for byte in body {
        bytes += cost(scan, *byte);
        if bytes > TREE_BYTES {
            return false;
        }
        scan = next(scan, *byte);
    }
    true
}

/// Where the byte after this one stands.
fn next(scan: Scan, byte: u8) -> Scan
    ensures { result ≡ next scan byte }
{
    match scan {
        Scan::Outside => {
            if byte == b'"' {
                return Scan::Inside;
            }
            Scan::Outside
        },
        Scan::Inside => {
            if byte == b'"' {
                return Scan::Outside;
            }
            if byte == b'\\' {
                return Scan::Escaped;
            }
            Scan::Inside
        },
        Scan::Escaped => Scan::Inside,
    }
}

/// What a byte is counted as.
fn cost(scan: Scan, byte: u8) -> u64
    ensures { result ≡ cost scan byte }
{
    match scan {
        Scan::Outside => {
            if byte == b',' || byte == b':' {
                return 96;
            }
            if byte == b'[' {
                return 160;
            }
            if byte == b'{' {
                return 1_000;
            }
            0
        },
        Scan::Inside | Scan::Escaped => 0,
    }
}
