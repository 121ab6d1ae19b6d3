//! The planners of tree calls.
ghost use Rattle.std.specs.Prelude.{◌≡◌, ℕ};
ghost use Rattle.ds_base.specs.Geometry.{IsGeom};
ghost use Rattle.ds_base.specs.declared.geometry.Geom.{Geom};
ghost use Rattle.ds_base.specs.declared.names.Key.{Key};
ghost use Rattle.ds_image.specs.Planning.{AllAreFew, AllKeep, Answers};
ghost use Rattle.ds_image.specs.SeenValues.{SeenValue};
ghost use Rattle.ds_image_parts.specs.Parts.{Parts};
ghost use Rattle.ds_tree.specs.CallNames.{HasNames};
ghost use Rattle.ds_tree.specs.declared.calls.CallOf.{CallOf};
ghost use Rattle.ds_host.specs.Reading.{IsReading, NeverChanges};

use ds_base::{Geom, SlotNo};
use ds_image::Plan;
use ds_tree::Call;

/// The planner of each tree call.
pub trait Planner: Plan + Drop {
    /// What the planner of a call answers, by the shape of the volume and the slot that the host holds.
    ghost plans: { Geom → ℕ → CallOf Key → Answers };

    /// The planner of a call, for a host with this slot; each word of the call is a name.
    fn of_call(geom: &Geom, slot: SlotNo, call: &Call) -> Self
        requires geom { IsGeom geom.now }
        requires names { HasNames call.now }
        ensures geom { Self.geom result ≡ geom.now }
        ensures answers { (seen : SeenValue) (p : Parts) → Self.answers result seen p ≡ plans geom.now slot call.now seen p };

    /// Each answer is of its form, and right for each image that agrees with what was seen.
    ghost all_keep: { (g : Geom) (slot : ℕ) (call : CallOf Key) → IsGeom g → HasNames call → AllKeep g call (plans g slot call) };

    /// Nowhere too much is asked for.
    ghost all_few: { (g : Geom) (slot : ℕ) (call : CallOf Key) → IsGeom g → HasNames call → AllAreFew g (plans g slot call) };

    /// A call that only reads asks for no change.
    ghost all_read: { (g : Geom) (slot : ℕ) (call : CallOf Key) → IsReading call → NeverChanges (plans g slot call) };
}
