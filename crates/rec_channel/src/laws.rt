//! Laws of histories: one version is in force at each frame, and later ones leave it in force.

ghost use Rattle.std.specs.Prelude.{ℕ, ◌≡◌, ◌<◌, ◌++◌, List, All};
ghost use Rattle.rec_channel.specs.History.{Version, IsHistory, InForce, version_at};

use crate::front::Front;
use crate::limits::MAX_VERSIONS;

/// Law: at each frame exactly one version is in force, and `version_at` is that one.
pub fn one_version_is_in_force()
    ensures some { (offered : ℕ) (history : List Version) (number : ℕ) →
        IsHistory offered history → InForce history number (version_at history number) }
    ensures one { (history : List Version) (number version other : ℕ) →
        InForce history number version → InForce history number other → version ≡ other }
{}

/// Law: versions that are added with marks over a frame's number leave the version that is in
/// force at that frame as it was.
pub fn later_versions_leave_the_past()
    ensures kept { (history more : List Version) (number version : ℕ) →
        All (λ (v : Version). number < v.mark) more →
        InForce history number version → InForce (history ++ more) number version }
    ensures nothing_else { (history more : List Version) (number version : ℕ) →
        All (λ (v : Version). number < v.mark) more →
        InForce (history ++ more) number version → InForce history number version }
    ensures same { (history more : List Version) (number : ℕ) →
        All (λ (v : Version). number < v.mark) more →
        version_at (history ++ more) number ≡ version_at history number }
{}

/// Law: a channel has at most 1,024 versions.
pub fn the_most_versions()
    ensures { MAX_VERSIONS ≡ 1024 }
{}

/// Law: whoever has seen nothing yet knows of no version and of no frame.
pub fn the_first_front()
    ensures { Front.START ≡ record { versions = 0; offered = 0 } }
{}
