//! The bucket into which wrong places pour, and which leaks at each step.
ghost use Rattle.std.specs.Prelude.{◌≡◌, ◌+◌, ◌*◌, ◌^◌, ◌<◌, ◌≤◌, ℕ, List, Bool, Option, IfSome};
ghost use Rattle.ht_clean.specs.Planes.{plane_bits};
ghost use Rattle.ht_clean.specs.Sparse.{IsPoured, brim, leak, wrong_at};

use crate::planes::Planes;
use ht_rate::Pattern;

// What a wrong place pours into it.
const POUR: u32 = 480;

/// How full it is, and how many places were wrong so far.
#[derive(Clone, Copy, Drop)]
pub(crate) struct Bucket {
    pub(crate) level: u32,
    pub(crate) wrong: u32,
}

// What leaks out at a step.
#[inline(always)]
fn leak_of(pattern: Pattern) -> u32
    ensures value { result ≡ leak pattern }
    ensures bound { result ≤ 73 }
{
    match pattern {
        Pattern::Half => 73,
        Pattern::TwoThirds => 32,
        Pattern::ThreeQuarters => 21,
        Pattern::FiveSixths => 10,
    }
}

// Where it is full.
#[inline(always)]
fn brim_of(pattern: Pattern) -> u32
    ensures value { result ≡ brim pattern }
    ensures bound { result ≤ 1201 }
{
    match pattern {
        Pattern::Half => 1201,
        Pattern::TwoThirds => 1120,
        Pattern::ThreeQuarters => 651,
        Pattern::FiveSixths => 660,
    }
}

impl Bucket {
    // One step, with so many wrong places.
    #[inline(always)]
    fn step(self, pattern: Pattern, here: u32) -> Option<Bucket>
        requires low { self.level < brim pattern }
        requires few { self.wrong ≤ 2 ^ 30 }
        requires here { here ≤ 2 }
        ensures poured { IfSome result (λ next. (received : List (Option Bool)) (u : List Bool) (at : ℕ)
            → here ≡ wrong_at pattern received u at → IsPoured pattern received u at self.level self.wrong
            → IsPoured pattern received u (at + 1) next.level next.wrong) }
        ensures low { IfSome result (λ next. next.level < brim pattern) }
        ensures few { IfSome result (λ next. next.wrong ≤ self.wrong + 2) }
    {
        let full = self.level + POUR * here;
        if full < brim_of(pattern) {
            Some(Bucket {
                level: full.saturating_sub(leak_of(pattern)),
                wrong: self.wrong + here,
            })
        } else {
            None
        }
    }

    /// The bucket after so many steps of a word, if it doesn't come to its brim.
    #[inline(always)]
    pub(crate) fn after(self, pattern: Pattern, wrong: Planes, count: u32) -> Option<Bucket>
        requires low { self.level < brim pattern }
        requires few { self.wrong ≤ 2 ^ 29 }
        requires count { count < 64 }
        ensures poured { IfSome result (λ next. (received : List (Option Bool)) (u : List Bool) (first : ℕ)
            → ((step : ℕ) → step < count → plane_bits wrong step ≡ wrong_at pattern received u (first + step))
            → IsPoured pattern received u first self.level self.wrong
            → IsPoured pattern received u (first + count) next.level next.wrong) }
        ensures low { IfSome result (λ next. next.level < brim pattern) }
        ensures few { IfSome result (λ next. next.wrong ≤ self.wrong + 2 * count) }
    {
        if wrong.a | wrong.b == 0 {
            return Some(Bucket {
                level: self.level.saturating_sub(leak_of(pattern) * count),
                wrong: self.wrong,
            });
        }
        let mut bucket = self;
        for step in 0..count {
            match bucket.step(pattern, wrong.bits_at(step)) {
                Some(next) => bucket = next,
                None => return None,
            }
        }
        Some(bucket)
    }
}
