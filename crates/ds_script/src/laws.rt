//! What holds of every text, however much memory there is for reading it.
#![tactic(auto)]

ghost use Rattle.ds_tree.specs.Grammar.{SpellsText};
ghost use Rattle.ds_script.specs.Faults.{in_scenario, in_volume};
ghost use Rattle.ds_script.specs.Laws.{HasOneAnswer, HasOneVolumeAnswer, NoneIsBad, OnlyVolumePasses, SpellsOneScenario, SpellsOneVolume, SpellsVolumeOf};

/// A text is at most one scenario, has at most one answer, and is never both a scenario and bad. Does nothing.
pub fn one_scenario()
    ensures one { SpellsOneScenario }
    ensures not_bad { NoneIsBad in_scenario SpellsText }
    ensures within { OnlyVolumePasses in_scenario SpellsText (λ s. s.geom) }
    ensures answer { HasOneAnswer }
{}

/// The same of a text that is the line of a volume.
pub fn one_volume()
    ensures one { SpellsOneVolume }
    ensures not_bad { NoneIsBad in_volume SpellsVolumeOf }
    ensures within { OnlyVolumePasses in_volume SpellsVolumeOf (λ volume. volume.1) }
    ensures answer { HasOneVolumeAnswer }
{}
