//! What a trail's records keep to.
use tmf_model::Sequence;

/// The configuration of one trail.
#[derive(Drop)]
pub struct Rules {
    /// The length in bytes at which the trail goes on in a new file.
    pub roll: u64,
    /// The trail's number.
    pub trail: u8,
    /// The discs whose audit it has.
    pub discs: Sequence<u8>,
    /// Each file with its disc.
    pub files: Sequence<(u8, u8)>,
}
