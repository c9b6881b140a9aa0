//! What a refusal of a trail hands back.
ghost use Rattle.std.specs.Prelude.{◌≡◌};

use trail_files::TrailFault;

/// The device, which goes back to the one that lent it.
pub fn handed_back<D>(refused: (D, TrailFault)) -> D
    ensures { result ≡ refused.0 }
{
    let (device, _) = refused;
    device
}
