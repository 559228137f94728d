//! The labels of a frame.
ghost use Rattle.std.specs.Prelude.{◌≤◌};

/// The labels of a frame whose PSDU has this number of octets, at least one.
#[derive(Drop)]
pub(crate) struct FrameLabels<'a> {
    pub(crate) octets: u16,
    pub(crate) labels: &'a [u8],
    pub(crate) ghost some: { 1 ≤ octets },
}
