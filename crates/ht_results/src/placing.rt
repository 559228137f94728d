//! Places in a frame.
ghost use Rattle.std.specs.Prelude.{◌≡◌, ◌+◌, ◌^◌, ◌<◌, ◌≤◌, ◌++◌, [], length, OnErr, OnOk};
ghost use Rattle.std.specs.List.{range_with_len};
ghost use Rattle.ht_results.specs.Plans.{put_values};
ghost use Rattle.ht_results.specs.Places.{places_in, places_of, put_on, stretch_places};

use std::alloc::{AllocError, Global};
use std::marker::Model;

/// A stretch of places that follow one another.
#[derive(Clone, Copy, Debug, Drop)]
struct Stretch {
    /// The first place.
    at: usize,
    /// How many they are.
    count: usize,
}

/// Places in a frame, one after another, on which values are to stand. They are kept as stretches of places that follow one
/// another, so that whoever has the frame copies the values of a stretch at once.
#[derive(Debug, Drop)]
pub struct KeptPlaces {
    // The stretches that have ended.
    ended: Vec<Stretch>,
    // The stretch behind them, which may go on.
    last: Stretch,
}

impl Model for KeptPlaces {
    ghost use Rattle.std.specs.Prelude.{ℕ, List};
    ghost use Rattle.ht_results.specs.Places.{places_of};

    ghost Value = { List ℕ };

    ghost view = { λ p. places_of p.ended.items p.last };
}

impl KeptPlaces {
    /// No place. It takes no memory.
    pub fn new(alloc: Global) -> KeptPlaces
        ensures { result ≡ [] }
    {
        KeptPlaces {
            ended: Vec::new(alloc),
            last: Stretch { at: 0, count: 0 },
        }
    }

    /// Adds this many places behind the others, which follow one another from this one on. It takes memory where the first
    /// isn't the one behind the place before. The only error is lack of memory.
    #[inline]
    pub fn add(&mut self, at: usize, count: usize) -> Result<(), AllocError>
        requires { length self.old + count < 2 ^ 64 }
        ensures { OnOk result (self.new ≡ self.old ++ range_with_len at count) }
    {
        turn_to(&mut self.ended, &mut self.last, at)?;
        self.last.count += count;
        Ok(())
    }

    /// Puts each of these values on its place, one after another, where the frame has the place.
    pub fn put_into<V: Copy>(&self, values: &[V], kept: &mut [V])
        requires { length self.now ≡ length values.now }
        ensures { kept.new ≡ put_on self.now values.now kept.old }
    {
        let behind = put_stretches(&self.ended, values, kept);
        put_stretch(kept, self.last.at, &values[behind..]);
    }
}

// Makes this place the next one of the last stretch. Where it isn't, that stretch ends, and another one begins.
#[inline(always)]
fn turn_to(ended: &mut Vec<Stretch>, last: &mut Stretch, at: usize) -> Result<(), AllocError>
    ensures next { OnOk result (last.new.at + last.new.count ≡ at) }
    ensures shorter { OnOk result (last.new.count ≤ last.old.count) }
    ensures same { OnOk result (places_of ended.new.items last.new ≡ places_of ended.old.items last.old) }
{
    if at.checked_sub(last.at) == Some(last.count) {
        return Ok(());
    }
    end_stretch(ended, *last)?;
    *last = Stretch { at, count: 0 };
    Ok(())
}

// Ends a stretch behind others, where it has a place.
fn end_stretch(ended: &mut Vec<Stretch>, stretch: Stretch) -> Result<(), AllocError>
    ensures { OnOk result (places_in ended.new.items ≡ places_of ended.old.items stretch) }
{
    if stretch.count > 0 {
        ended.push(stretch)?;
    }
    Ok(())
}

// Puts the values of stretches on their places, and answers how many they are.
#[tactic(auto, using(crate::proofs::Stretches::count_next))]
fn put_stretches<V: Copy>(stretches: &[Stretch], values: &[V], kept: &mut [V]) -> usize
    requires { length (places_in stretches.now) ≤ length values.now }
    ensures put { kept.new ≡ put_on (places_in stretches.now) values.now kept.old }
    ensures count { result ≡ length (places_in stretches.now) }
{
    let mut behind = 0;
    for stretch in stretches {
        put_stretch(kept, stretch.at, &values[behind..behind + stretch.count]);
        behind += stretch.count;
    }
    behind
}

// Puts values on the places from this one on, as far as there are any.
fn put_stretch<V: Copy>(kept: &mut [V], at: usize, values: &[V])
    ensures { kept.new ≡ put_values kept.old at values.now }
{
    if at < kept.len() {
        let count = values.len().min(kept.len() - at);
        kept[at..at + count].copy_from_slice(&values[..count]);
    }
}
