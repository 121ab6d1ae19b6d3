//! What an event does to the logical image of a store, as laws: definitions, lemmas, and four functions that do nothing and
//! whose contracts are the main laws.
//!
//! The image of a store shows the metadata with all pending pairs laid over them. Each command with effect writes one
//! sector, and is one of the steps of `ImageStep`; only a commit changes the image and the tree. So what hosts have seen
//! under their locks stays true, and the tree is what the committed calls did, one after another.
#![tactic(auto)]

ghost use Rattle.ds_image_laws.specs.Laws.{
  SlotsByValue,
  HeadersByValue,
  AlikeByMetadata,
  HaveOneGuard,
  LaidInAnyOrder,
  LaidInPlace,
  PendingApart,
  FreeStands,
  StepKeepsImage,
  GuardsStay,
  SeenStays,
  ObjectsStay,
  FormattedHasImage,
  LogicalStands,
  RunDoesAll,
  PlannersAreRight,
};

/// The slots and headers that sectors spell are functions of the sectors' bytes.
pub fn marks_are_by_value()
    ensures slots { SlotsByValue }
    ensures headers { HeadersByValue }
{}

/// What holds of any lists of sectors: those with the same metadata are alike, a sector has one guard, and where pairs have
/// no common target, or stand at their sectors already, nothing depends on when they are laid.
pub fn images_are_alike()
    ensures alike { AlikeByMetadata }
    ensures one_guard { HaveOneGuard }
    ensures any_order { LaidInAnyOrder }
    ensures in_place { LaidInPlace }
{}

/// What holds of a store that has an image, and what each step keeps of it: the image itself, guards and what they protect,
/// what calls have seen, and the objects of a tree.
pub fn steps_keep()
    ensures apart { PendingApart }
    ensures free { FreeStands }
    ensures image { StepKeepsImage }
    ensures guards { GuardsStay }
    ensures seen { SeenStays }
    ensures objects { ObjectsStay }
{}

/// What holds from the formatted volume on, after any steps: there is a logical image, it stands for what the committed calls
/// made of the tree one after another, and a lawful planner's answers are right at every moment.
pub fn runs_do_all()
    ensures formatted { FormattedHasImage }
    ensures logical { LogicalStands }
    ensures run { RunDoesAll }
    ensures planners { PlannersAreRight }
{}
