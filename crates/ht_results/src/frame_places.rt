//! The places of a frame.
ghost use Rattle.std.specs.Prelude.{◌≡◌, ◌↔◌, ◌<◌, ◌≤◌, IsTrue};
ghost use Rattle.ht_capture.specs.Files.{is_erased as erased_at, present_among};
ghost use Rattle.ht_rate.specs.Rates.{carriers_of};
ghost use Rattle.ht_results.specs.Folding.{jobs_in_frame, kind_of};

use ht_capture::FrameHead;
use ht_rate::{Carrier, Rate};

// Whether a subcarrier is erased.
fn is_erased(erased: u128, carrier: u8) -> bool
    requires { carrier < 128 }
    ensures { result ≡ erased_at erased carrier }
{
    erased >> carrier & 1 == 1
}

// The number of subcarriers that are present.
#[tactic(auto, using(crate::proofs::Present::present_step))]
fn present_in(head: &FrameHead) -> u8
    ensures value { result ≡ present_among (carriers_of head.now.rate) 0 head.now.erased }
    ensures few { result ≤ 114 }
{
    let mut count = 0;
    for carrier in 0..head.rate.carriers() {
        if !is_erased(head.erased, carrier) {
            count += 1;
        }
    }
    count
}

/// The number of a frame's jobs, at most 2298924: its symbols times the subcarriers that are present. The frame has at least
/// one octet.
pub fn jobs_in(head: &FrameHead) -> u64
    requires { 1 ≤ head.now.length }
    ensures value { result ≡ jobs_in_frame head.now }
    ensures few { result ≤ 2298924 }
{
    let symbols = u64::from(head.rate.symbols(head.length));
    symbols * u64::from(present_in(head))
}

/// What a subcarrier carries. One that the rate doesn't have counts as a data subcarrier with its index as its number.
#[inline]
pub fn kind(rate: &Rate, carrier: u8) -> Carrier
    ensures { result ≡ kind_of rate.now carrier }
{
    if carrier < rate.carriers() {
        rate.carrier(carrier)
    } else {
        Carrier::Data(carrier)
    }
}

/// A head that stands for the one that came last as long as none has come. Nothing is said of what it holds.
#[tactic(auto, unfolding(ht_rate::specs::Rates::rate_of))]
pub fn no_head() -> FrameHead {
    let Ok(rate) = Rate::of(0, 0) else {
        unreachable!();
    };
    FrameHead {
        frame: 0,
        rate,
        length: 1,
        erased: 0,
    }
}

/// Whether both are the same head, as `==` says too.
pub fn same_head(head: &FrameHead, other: &FrameHead) -> bool
    ensures { IsTrue result ↔ (head.now ≡ other.now) }
{
    *head == *other
}
