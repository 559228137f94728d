//! The least distance of each half.
ghost use Rattle.std.specs.Prelude.{◌≡◌, ◌<◌, ◌+◌, ◌*◌, length, replicate};
ghost use Rattle.ht_weigh.specs.Leasts.{IsLowered, IsOf, side};

// The same distance for each half: there are at most two for each of six bits on four streams.
pub(crate) fn all_at(distance: u128) -> [u128; 48]
    ensures { result ≡ replicate 48 distance }
{
    [distance; 48]
}

// Where the least distance of a half stands: the half of a bit, counted over all streams, with this value.
#[inline(always)]
pub(crate) fn half(bit: usize, value: bool) -> usize
    requires { bit < 24 }
    ensures value { result ≡ 2 * bit + side value }
    ensures bound { result < 48 }
{
    if value { 2 * bit + 1 } else { 2 * bit }
}

// Lowers the least distance of a half to this one, if it is above it.
#[inline(always)]
pub(crate) fn lower(leasts: &mut [u128], half: usize, distance: u128)
    requires { half < length leasts.old }
    ensures { IsLowered (IsOf half distance) leasts.old leasts.new }
{
    if distance < leasts[half] {
        leasts[half] = distance;
    }
}
