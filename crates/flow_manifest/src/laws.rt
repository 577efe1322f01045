//! Laws of the octets of manifests.

ghost use Rattle.std.specs.Prelude.{◌≡◌, ℕ, List, IfOk, IfErr};
ghost use Rattle.flow_manifest.specs.declared.error.ManifestError.{ManifestError};
ghost use Rattle.flow_manifest.specs.declared.manifest.Manifest.{Manifest};
ghost use Rattle.flow_manifest.specs.Manifest.{IsValidManifest, IsBody, manifest_octets};
ghost use Rattle.flow_manifest.specs.Fault.{IsFault};
ghost use Rattle.flow_manifest.specs.declared.error.OpenError.{OpenError};
ghost use Rattle.flow_manifest.specs.declared.slots.Slots.{Slots};
ghost use Rattle.flow_manifest.specs.Slots.{AreSlots, IsInForce};
ghost use Rattle.flow_manifest.specs.Opening.{IsOpenFault};

use crate::decoding::decode;
use crate::encoding::encode;
use crate::error::ManifestError;
use crate::manifest::Manifest;
use std::alloc::Global;

/// Octets are those of one valid manifest at most, they have one first fault at most, and never both.
pub fn one_answer()
    ensures own_octets { (m : Manifest) → IsValidManifest m → IsBody (manifest_octets m) m }
    ensures one_manifest { (octets : List ℕ) (m n : Manifest) → IsBody octets m → IsBody octets n → m ≡ n }
    ensures one_fault { (octets : List ℕ) (d e : ManifestError) → IsFault octets d → IsFault octets e → d ≡ e }
    ensures never_both { (octets : List ℕ) (m : Manifest) (d : ManifestError) → IsBody octets m → IsFault octets d → ⊥ }
{}

/// One manifest at most is in force, and in one slot. The slots have one first fault at most, and none where a manifest
/// is in force.
pub fn one_in_force()
    ensures one_manifest { (image : ℕ → List ℕ) (m n : Manifest) → IsInForce image m → IsInForce image n → m ≡ n }
    ensures one_value { (image : ℕ → List ℕ) (s t : Slots) → AreSlots s image → AreSlots t image → s ≡ t }
    ensures one_fault { (image : ℕ → List ℕ) (d e : OpenError) → IsOpenFault image d → IsOpenFault image e → d ≡ e }
    ensures never_both { (image : ℕ → List ℕ) (m : Manifest) (d : OpenError) → IsInForce image m → IsOpenFault image d
        → ⊥ }
{}

/// A manifest that is written and read again is the same.
pub fn read_back(alloc: Global, manifest: &Manifest) -> Result<Manifest, ManifestError>
    requires { IsValidManifest manifest.now }
    ensures same { IfOk result (λ m. m ≡ manifest.now) }
    ensures only_memory { IfErr result (λ e. e ≡ ManifestError.OutOfMemory) }
{
    let octets = encode(alloc, manifest)?;
    decode(alloc, &octets)
}
