//! Planners of calls.
ghost use Rattle.std.specs.Prelude.{◌≡◌, ℕ};
ghost use Rattle.ds_base.specs.Geometry.{IsGeom};
ghost use Rattle.ds_base.specs.declared.geometry.Geom.{Geom};
ghost use Rattle.ds_base.specs.declared.names.Key.{Key};
ghost use Rattle.ds_tree.specs.CallNames.{HasNames};
ghost use Rattle.ds_tree.specs.declared.calls.CallOf.{CallOf};
ghost use Rattle.ds_image_parts.specs.Parts.{Parts};
ghost use Rattle.ds_image.specs.Planning.{Answers, AllAreAllowed, AllAreFew, AllKeep};
ghost use Rattle.ds_image_parts.specs.Readings.{ReadsParts};
ghost use Rattle.ds_image.specs.SeenValues.{look_of};

use crate::asks::Ask;
use crate::seen::Seen;

/// How a call on the tree of a volume is done: by what it has seen so far it tells what it needs next.
pub trait Plan {
    /// The shape of the volume.
    ghost geom: { Self → Geom };

    /// The host's slot, from whose number on clusters are tried.
    ghost slot: { Self → ℕ };

    /// The call.
    ghost call: { Self → CallOf Key };

    /// What it asks for, by what was seen and the parts that this spells.
    ghost answers: { Self → Answers };

    fn ask(&self, seen: &Seen) -> Ask
        ensures { (p : Parts) → ReadsParts (geom self.now) (look_of seen.now) p → result ≡ answers self.now seen.now p };

    /// Each answer is of its form, and right for each image that agrees with what was seen.
    ghost keeps: { (plan : Self) → IsGeom (geom plan) → HasNames (call plan) → AllKeep (geom plan) (call plan) (answers plan) };

    /// With what it asks for a call holds at most 24 locks, and has read at most 256 sectors.
    ghost few: { (plan : Self) → IsGeom (geom plan) → HasNames (call plan) → AllAreFew (geom plan) (answers plan) };

    /// It asks for no lock but those that the call may take.
    ghost allowed: { (plan : Self) → IsGeom (geom plan) → HasNames (call plan) → AllAreAllowed (geom plan) (slot plan) (call plan) (answers plan) };
}
