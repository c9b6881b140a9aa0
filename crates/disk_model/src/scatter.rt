//! How the bytes at risk of a file become those of an image.

ghost use Rattle.std.specs.Prelude.{◌≡◌, ◌≤◌, ◌<◌, ℕ, true, false, length};
ghost use Rattle.disk_model.specs.Extent.{is_at_risk};
ghost use Rattle.disk_model.specs.Image.{next_number, picked};
ghost use Rattle.disk_model.specs.MemDisk.{synced_byte};
ghost use Rattle.disk_model.specs.Scattered.{IsScattered, is_told};

use crate::base::Base;
use crate::draws::Draws;
use crate::extent::Extent;

// Whether an offset is in one of the ranges.
fn is_at_risk(risk: &[Extent], at: usize) -> bool
    ensures { result ≡ is_at_risk risk.now at }
{
    risk.iter().any(|extent| extent.has(at))
}

// The byte that an image has at an offset at which this byte stands.
fn image_byte(draws: &mut Draws, risk: &[Extent], base: &Base, at: usize, now: u8) -> u8
    ensures safe { is_told base.now risk.now at ≡ false → (result ≡ now) × (draws.new.state ≡ draws.old.state) }
    ensures risked { is_told base.now risk.now at ≡ true
        → (result ≡ picked (next_number draws.old.state) now (synced_byte base.now at now)) × (draws.new.state ≡ next_number draws.old.state) }
{
    if base.length <= at || is_at_risk(risk, at) {
        draws.pick(now, base.byte(at, now))
    } else {
        now
    }
}

// An offset from this one on, such that none is at risk from this one up to it.
fn next_at_risk(base: &Base, risk: &[Extent], from: usize) -> usize
    ensures from { from ≤ result }
    ensures none { (i : ℕ) → from ≤ i → i < result → is_told base.now risk.now i ≡ false }
    ensures most { (end : ℕ) → from ≤ end → base.now.length ≤ end → result ≤ end }
{
    let mut next = from.max(base.length);
    let mut rest = risk;
    while let Some((extent, later)) = rest.split_first() {
        if from <= extent.at || extent.has(from) {
            next = next.min(from.max(extent.at));
        }
        rest = later;
    }
    next
}

/// Picks the bytes at risk, in rising order of their offsets.
pub(crate) fn scatter_bytes(bytes: &mut [u8], risk: &[Extent], base: &Base, draws: &mut Draws)
    requires { base.now.length ≤ length bytes.old }
    ensures { IsScattered (is_told base.now risk.now) (synced_byte base.now) draws.old.state bytes.old bytes.new (length bytes.old) draws.new.state }
{
    let mut at = next_at_risk(base, risk, 0);
    while at < bytes.len() {
        bytes[at] = image_byte(draws, risk, base, at, bytes[at]);
        at = next_at_risk(base, risk, at + 1);
    }
}
