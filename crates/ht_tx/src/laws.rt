//! What holds of what is sent.
ghost use Rattle.std.specs.Prelude.{◌≡◌, List, All};
ghost use Rattle.ht_tx.specs.Frames.{FrameView, IsPsdu};
ghost use Rattle.ht_tx.specs.Symbols.{IsSymbols, SymbolsView};
ghost use Rattle.ht_tx.specs.Transmitted.{AreTransmitted, IsTransmitted};

/// For a frame no more than one list of symbols is sent, of those with as many points as its rate and length ask for; and for a
/// list of frames no more than one list of these.
pub fn one_transmission()
    ensures one { (f : FrameView) (sent other : SymbolsView)
        → IsTransmitted f sent → IsTransmitted f other
        → IsSymbols sent.rate sent.length sent.points → IsSymbols other.rate other.length other.points
        → sent ≡ other }
    ensures all { (frames : List FrameView) (sent others : List SymbolsView)
        → AreTransmitted frames sent → AreTransmitted frames others → sent ≡ others }
{}

/// For a frame of 1 to 65535 octets some list of symbols is sent, at every rate and with every seed, and so for each of a list
/// of such frames. With [`one_transmission`] it is exactly one.
pub fn some_transmission()
    ensures each { (f : FrameView) → IsPsdu f.octets
        → (sent : SymbolsView) × IsTransmitted f sent × IsSymbols sent.rate sent.length sent.points }
    ensures all { (frames : List FrameView) → All (λ f. IsPsdu f.octets) frames
        → (sent : List SymbolsView) × AreTransmitted frames sent }
{}
