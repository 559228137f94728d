//! Certificates of single data subcarriers: made, and checked without a search.
ghost use Rattle.std.specs.Prelude.{◌≡◌, ◌≢◌, ◌⊎◌, ◌↔◌, ◌<◌, ◌≤◌, length, take, IfOk, Ok, Some};
ghost use Rattle.ht_rate.specs.Rates.{rate_of, streams_of};
ghost use Rattle.ht_rate.specs.declared.rates.Rate.{Rate as RateView};
ghost use Rattle.ht_metric.specs.Jobs.{IsNear};
ghost use Rattle.ht_certify.specs.Certifying.{certificate_of};
ghost use Rattle.ht_witness.specs.Certificates.{Checked, fault_of};
ghost use Rattle.ht_library.specs.Detected.{job_of};
ghost use Rattle.ht_library.specs.Certified.{IsFlaw, PutsCertificate, claim_of};

use crate::crossing::{MizgaureChannel, MizgaureFlaw, MizgaureHit, MizgaureReceived};
use crate::detection::{hit_of, job};
use crate::fault::{DONE, NO_MEMORY, NO_RATE, NO_ROOM, NOT_CERTIFIED};
use ht_metric::{Found, Vector};
use ht_pam::Point;
use ht_rate::Rate;
use ht_witness::{Certificate, CheckFault, Marks, certify, check};
use std::alloc::{AllocError, Global};

// Puts a certificate where C has room for its marks, and says how many there are.
fn put_certificate(
    certificate: &Certificate,
    found: &mut MizgaureHit,
    marks: &mut [bool],
    size: &mut u64,
) -> u32
    ensures { PutsCertificate marks.old marks.new size.new found.old found.new result certificate.now }
{
    let made = certificate.marks.as_slice();
    *size = made.len() as u64;
    if made.len() > marks.len() {
        return NO_ROOM;
    }
    marks[..made.len()].copy_from_slice(made);
    *found = hit_of(&Found {
        vector: certificate.vector,
        distance: certificate.distance,
    });
    DONE
}

// The certificate of a data subcarrier.
fn certificate(
    alloc: Global,
    rate: &Rate,
    channel: &MizgaureChannel,
    received: &MizgaureReceived,
) -> Result<Certificate, AllocError>
    ensures { IfOk result (λ certificate. certificate ≡ certificate_of (job_of rate.now channel.now received.now)) }
{
    certify(&job(rate, channel, received), alloc)
}

/// The certificate of a data subcarrier: its first nearest vector with the distance, and the marks of a walk through the tree of
/// suffixes that shows that no vector is nearer, `true` for a level that is open.
#[unsafe(no_mangle)]
pub extern "C" fn mizgaure_certify_job(
    alloc: Global,
    bandwidth: u8,
    mcs: u8,
    channel: &MizgaureChannel,
    received: &MizgaureReceived,
    found: &mut MizgaureHit,
    marks: &mut [bool],
    size: &mut u64,
) -> u32
    ensures no_rate { (result ≡ 2) ↔ ((1 < bandwidth) ⊎ (31 < mcs)) }
    ensures fault { (result ≡ 0) ⊎ (result ≡ 1) ⊎ (result ≡ 2) ⊎ (result ≡ 7) }
    ensures kept { (result ≡ 1) ⊎ (result ≡ 2) → (found.new ≡ found.old) × (marks.new ≡ marks.old) × (size.new ≡ size.old) }
    ensures length { length marks.new ≡ length marks.old }
    ensures value { result ≢ 1 → (rate : RateView) → rate_of bandwidth mcs ≡ Ok rate
        → PutsCertificate marks.old marks.new size.new found.old found.new result (certificate_of (job_of rate channel.now received.now)) }
{
    let Ok(rate) = Rate::of(bandwidth, mcs) else {
        return NO_RATE;
    };
    let Ok(certificate) = certificate(alloc, &rate, channel, received) else {
        return NO_MEMORY;
    };
    put_certificate(&certificate, found, marks, size)
}

// The points of the first streams.
fn vector(streams: u8, points: &[Point; 4]) -> Vector
    requires { streams ≤ 4 }
    ensures value { result ≡ take streams points.now }
    ensures streams { length result ≡ streams }
{
    let mut vector = Vector::new();
    for k in 0..streams {
        vector.push(points[usize::from(k)]);
    }
    vector
}

// What is claimed of a data subcarrier.
fn claim(
    alloc: Global,
    rate: &Rate,
    hit: &MizgaureHit,
    marks: &[bool],
) -> Result<Certificate, AllocError>
    ensures value { IfOk result (λ certificate. certificate ≡ claim_of rate.now hit.now marks.now) }
    ensures streams { IfOk result (λ certificate. length certificate.vector ≡ streams_of rate.now) }
{
    let marks = Marks::from(Vec::from_slice(alloc, marks)?);
    Ok(Certificate {
        vector: vector(rate.streams(), &hit.points),
        distance: u128::from(hit.low) + (u128::from(hit.high) << 64),
        marks,
    })
}

// What is wrong with a certificate, in the form that crosses.
fn flaw_of(fault: &CheckFault) -> MizgaureFlaw
    ensures { IsFlaw (Some fault.now) result }
{
    let at = fault.at();
    MizgaureFlaw {
        low: (at % (1 << 64)) as u64,
        high: (at / (1 << 64)) as u64,
        kind: u32::from(fault.number()),
    }
}

/// Checks a certificate of a data subcarrier, without a search: whether its marks show that the hit is the first nearest vector with
/// its distance, or what is wrong. The points of the rate's streams count.
#[unsafe(no_mangle)]
pub extern "C" fn mizgaure_check_job(
    alloc: Global,
    bandwidth: u8,
    mcs: u8,
    channel: &MizgaureChannel,
    received: &MizgaureReceived,
    hit: &MizgaureHit,
    marks: &[bool],
    flaw: &mut MizgaureFlaw,
) -> u32
    ensures no_rate { (result ≡ 2) ↔ ((1 < bandwidth) ⊎ (31 < mcs)) }
    ensures fault { (result ≡ 0) ⊎ (result ≡ 1) ⊎ (result ≡ 2) ⊎ (result ≡ 12) }
    ensures done { (rate : RateView) → rate_of bandwidth mcs ≡ Ok rate → result ≢ 1
        → (result ≡ 0) ↔ Checked (job_of rate channel.now received.now) (claim_of rate hit.now marks.now) }
    ensures near { result ≡ 0 → (rate : RateView) → rate_of bandwidth mcs ≡ Ok rate
        → IsNear (job_of rate channel.now received.now) (take (streams_of rate) hit.now.points) }
    ensures flaw { result ≡ 12 → (rate : RateView) → rate_of bandwidth mcs ≡ Ok rate
        → IsFlaw (fault_of (job_of rate channel.now received.now) (claim_of rate hit.now marks.now)) flaw.new }
    ensures kept { (result ≡ 12 → ⊥) → flaw.new ≡ flaw.old }
{
    let Ok(rate) = Rate::of(bandwidth, mcs) else {
        return NO_RATE;
    };
    let Ok(claim) = claim(alloc, &rate, hit, marks) else {
        return NO_MEMORY;
    };
    match check(&job(&rate, channel, received), &claim) {
        Ok(()) => DONE,
        Err(fault) => {
            *flaw = flaw_of(&fault);
            NOT_CERTIFIED
        }
    }
}
