//! How a file counts its frames.
ghost use Rattle.std.specs.Prelude.{◌≡◌};
ghost use Rattle.ht_counted.specs.Counted.{frame_limits as frame_limits_of};

use ht_heads::Limits;
use ht_io::Kind;

/// Any number of frames that two octets can say, 0 to 65535.
pub fn frame_limits() -> Limits
    ensures { result ≡ frame_limits_of }
{
    Limits {
        width: 2,
        least: 0,
        most: 65535,
        kind: Kind::BadLength,
    }
}
