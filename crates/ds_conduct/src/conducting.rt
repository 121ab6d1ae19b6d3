//! Hosts as those see them who carry out their commands.
ghost use Rattle.std.specs.Prelude.{◌≡◌, ℕ, true};
ghost use Rattle.ds_base.specs.Device.{Fits};
ghost use Rattle.ds_base.specs.declared.commands.Command.{Command};
ghost use Rattle.ds_base.specs.declared.commands.Next.{Next};
ghost use Rattle.ds_base.specs.declared.commands.Next.TheVariants as nexts;
ghost use Rattle.ds_base.specs.declared.names.Key.{Key};
ghost use Rattle.ds_tree.specs.declared.calls.HostCallOf.{HostCallOf};
ghost use Rattle.ds_conduct.specs.Begins.{BeginsWith};
ghost use Rattle.ds_conduct.specs.Conducts.{Answers, IsDue, TellsLate, after};
ghost use Rattle.ds_conduct.specs.Digests.{Digest, begun, fresh_digest, own_pair, stood_still, told};
ghost use Rattle.ds_conduct.specs.Resting.{rests};
ghost use Rattle.ds_conduct.specs.Settings.{Setting};

use crate::answers::HostAnswer;
use ds_base::{Gen, Next, Response, SlotNo, Tick};
use ds_tree::HostCall;

/// A host: it tells what it sends next, by what was answered so far, and how its calls are answered.
pub trait Conducting {
    /// What it acts by.
    ghost setting: { Self → Setting };

    /// It has sent and heard what this digest tells.
    ghost agrees: { Self → Digest → Type 0 };

    /// What it does next, at a tick.
    ghost due: { Self → ℕ → Next };

    /// It can be given this call.
    ghost carries: { Self → HostCallOf Key → Type 0 };

    /// Begins a call, between two calls: it is answered at once, or commands follow.
    fn begin(&mut self, call: &HostCall) -> Option<HostAnswer>
        requires rest { (d : Digest) × agrees self.old d × (rests (setting self.old).geom d ≡ true) }
        requires carries { carries self.old call.now }
        ensures setting { setting self.new ≡ setting self.old }
        ensures answer { (d : Digest) → agrees self.old d → BeginsWith d call.now result }
        ensures agrees { (d : Digest) → agrees self.old d → agrees self.new (told result (begun d call.now)) };

    /// What it does next, at a tick: it rests exactly between calls.
    fn next(&self, now: Tick) -> Next
        ensures due { result ≡ due self.now now }
        ensures may { (d : Digest) → agrees self.now d → IsDue (setting self.now) d now result };

    /// Takes the response to the command that was sent.
    fn take(&mut self, response: &Response, now: Tick) -> Option<HostAnswer>
        requires known { (d : Digest) × agrees self.old d }
        requires sent { (command : Command) × (due self.old now ≡ nexts.Send command) × Fits command response.now }
        ensures setting { setting self.new ≡ setting self.old }
        ensures answer { (d : Digest) (command : Command) → agrees self.old d → due self.old now ≡ nexts.Send command
            → Answers (setting self.old) d now command response.now result }
        ensures agrees { (d : Digest) (command : Command) → agrees self.old d → due self.old now ≡ nexts.Send command
            → agrees self.new (after (setting self.old) d now command response.now result) };

    /// A plain write is due too late: the call ends, or its tail does.
    fn late(&mut self, now: Tick) -> Option<HostAnswer>
        requires known { (d : Digest) × agrees self.old d }
        requires late { (at : ℕ) × (last : ℕ) × (due self.old now ≡ nexts.Late at last) }
        ensures setting { setting self.new ≡ setting self.old }
        ensures answer { (d : Digest) → agrees self.old d → TellsLate d now result }
        ensures agrees { (d : Digest) → agrees self.old d → agrees self.new (told result (stood_still d)) };

    /// The host dies: it knows nothing any more.
    fn lose(&mut self)
        ensures setting { setting self.new ≡ setting self.old }
        ensures agrees { agrees self.new fresh_digest };

    /// The slot and generation that it holds.
    fn generation(&self) -> Option<(SlotNo, Gen)>
        ensures { (d : Digest) → agrees self.now d → result ≡ own_pair d.own };
}
