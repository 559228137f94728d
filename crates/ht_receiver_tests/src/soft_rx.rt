//! Captures of zeros, where each bit weighs 0, by one worker and by several.
use crate::common::{Harm, zeros};
use crate::equal::equal;
use ht_feed::OpenGate;
use ht_soft_rx::{receive_soft, receive_soft_alone};
use std::test::Fail;

const ONE: &str = "soft 0 cost 0 seed zero\nend 1 frames\n";

#[test]
fn a_frame_of_zeros(rt: HostRuntime) -> Result<(), Fail> {
    let alloc = rt.alloc();
    let octets = zeros(alloc, &[1])?;
    for window in [1, 7, 4096] {
        let mut source = Harm::None.source(alloc, &octets)?;
        let mut sink = Harm::None.sink(alloc)?;
        let ended = receive_soft_alone(alloc, window, &mut source, &mut sink, &OpenGate);
        equal(
            &rt,
            (window, ended, sink.held()),
            (window, Ok(1), ONE.as_bytes()),
        );
    }
    Ok(())
}

const THREE: &str =
    "soft 0 cost 0 seed zero\nsoft 1 cost 0 seed zero\nsoft 2 cost 0 seed zero\nend 3 frames\n";

// Frames of 32 symbols, which are long enough for the workers to decode.
#[test]
fn long_frames_of_zeros(rt: HostRuntime) -> Result<(), Fail> {
    let alloc = rt.alloc();
    let octets = zeros(alloc, &[100, 100, 100])?;
    for (workers, window) in [(1, 1), (1, 4096), (2, 1), (2, 4096), (5, 1), (5, 4096)] {
        let mut source = Harm::None.source(alloc, &octets)?;
        let mut sink = Harm::None.sink(alloc)?;
        let gate = OpenGate;
        let ended = receive_soft(&rt, alloc, workers, window, &mut source, &mut sink, &gate);
        let answer = (workers, window, ended, sink.held());
        equal(&rt, answer, (workers, window, Ok(3), THREE.as_bytes()));
    }
    Ok(())
}
