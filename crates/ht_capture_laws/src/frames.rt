//! Which frames and jobs there are among the items of octets, whatever the octets are.
ghost use Rattle.std.specs.Prelude.{◌≡◌, ◌⊎◌, ◌+◌, ◌≤◌, ℕ, List, [], ◌∷◌, ◌++◌, Some, length, map, All};
ghost use Rattle.std.specs.List.{range_with_len};
ghost use Rattle.ht_io.specs.declared.faults.Kind.TheVariants.{Truncated};
ghost use Rattle.ht_capture.specs.Captures.{capture_of};
ghost use Rattle.ht_metric.specs.Jobs.{JobView};
ghost use Rattle.ht_capture.specs.declared.items.FrameHead.{FrameHead};
ghost use Rattle.ht_capture.specs.declared.items.Item.{Item};
ghost use Rattle.ht_capture.specs.declared.items.Item.TheVariants.{Frame, Job};
ghost use Rattle.ht_capture_laws.specs.Items.{FrameJobs, IsFrontOfFrame, IsHead, IsNextHead, IsNextJob, IsPlaceIn, IsWholeFrame};
ghost use Rattle.ht_capture_laws.specs.Items.{cut_frames, frames_in, items_in, jobs_in, whole_frames};

/// The items of octets are those of whole frames, and then of at most one frame that is cut off behind one of its
/// symbols. So the whole frames of octets are a function of their items.
///
/// Take the capture in version 2 of two frames at 20 MHz, MCS 0, of one octet each, in which subcarrier 0 alone is
/// present. It has 163 octets, and gives twice a head and then a job for each of two symbols. Without its last octet it
/// has a whole frame and then one of a single job, at frame 1, symbol 0 and subcarrier 0. With MCS 32 in the second head
/// it has one frame, which is whole.
pub fn whole_or_cut()
    // Each head has its jobs behind it, and nothing else is among the items.
    ensures items { (octets : List ℕ) → (capture_of octets).items ≡ items_in (frames_in (capture_of octets).items) }

    // The whole frames come first.
    ensures order { (octets : List ℕ) → frames_in (capture_of octets).items
        ≡ whole_frames (capture_of octets).items ++ cut_frames (capture_of octets).items }
    ensures whole { (octets : List ℕ) → All IsWholeFrame (whole_frames (capture_of octets).items) }
    ensures cut { (octets : List ℕ) → All IsFrontOfFrame (cut_frames (capture_of octets).items) }
    ensures one { (octets : List ℕ) → length (cut_frames (capture_of octets).items) ≤ 1 }

    // None is cut off but where the octets end too early.
    ensures truncated { (octets : List ℕ) → (cut_frames (capture_of octets).items ≡ [])
        ⊎ ((capture_of octets).fault ≡ Some (record { kind = Truncated; offset = length octets })) }
{}

/// The number of a head is the number of the heads in front of it, and that of a job the number of the jobs in front of
/// it, over the whole capture. Each job stands on a subcarrier of its frame that is present, in one of its symbols.
pub fn numbers_and_places()
    ensures frames { (octets : List ℕ) → map (λ f. f.head.frame) (frames_in (capture_of octets).items)
        ≡ range_with_len 0 (length (frames_in (capture_of octets).items)) }
    ensures jobs { (octets : List ℕ) → map (λ job. job.number) (jobs_in (frames_in (capture_of octets).items))
        ≡ range_with_len 0 (length (jobs_in (frames_in (capture_of octets).items))) }
    ensures heads { (octets : List ℕ) → All (λ f. IsHead f.head) (frames_in (capture_of octets).items) }
    ensures places { (octets : List ℕ) → All (λ f. All (λ job. IsPlaceIn f.head job.place) f.jobs) (frames_in (capture_of octets).items) }
{}

/// The items in front of an item say which number and place it has. A head's number is the number of heads in front of it,
/// and all frames in front of it are whole. A job is one of the last head in front of it: its number is the number of all
/// jobs in front of it, and its place the one behind those of its frame's jobs so far.
///
/// Behind a head at 20 MHz without erased subcarriers and 57 jobs of that frame, say, the next job is that of symbol 1
/// and subcarrier 1.
pub fn next_item()
    ensures head { (octets : List ℕ) (front back : List Item) (head : FrameHead)
        → (capture_of octets).items ≡ front ++ Frame head ∷ back → IsNextHead (frames_in front) head }
    ensures job { (octets : List ℕ) (front back : List Item) (job : JobView)
        → (capture_of octets).items ≡ front ++ Job job ∷ back → IsNextJob (frames_in front) job }
{}

/// More octets take back no item, and no frame that is whole. So what is said of the whole frames of a beginning can be
/// written before the rest is known.
pub fn more_octets()
    ensures items { (octets more : List ℕ) → (later : List Item)
        × ((capture_of (octets ++ more)).items ≡ (capture_of octets).items ++ later) }
    ensures frames { (octets more : List ℕ) → (later : List FrameJobs)
        × (whole_frames (capture_of (octets ++ more)).items ≡ whole_frames (capture_of octets).items ++ later) }
{}
