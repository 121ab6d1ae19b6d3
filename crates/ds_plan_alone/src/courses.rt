//! The course of a call that nothing else disturbs.
ghost use Rattle.std.specs.Prelude.{◌≡◌, ◌≤◌, IfOk, length};
ghost use Rattle.ds_plan_alone.specs.Courses.{EndsRight, IsCourse};
ghost use Rattle.ds_image.specs.Sound.{StandsFor};
ghost use Rattle.ds_tree.specs.CallNames.{HasNames};
ghost use Rattle.ds_tree.specs.Nodes.{FileTree};

use ds_base::{NoMemory, ObjNo, SectorNo};
use ds_image::{Ask, Image, Plan, Seen, Store};
use std::alloc::Global;

/// What a call needs on its way: a lock object to hold, or a sector to read.
#[derive(Clone, Copy, Debug, PartialEq, Eq)]
pub enum Asked {
    Lock(ObjNo),
    Read(SectorNo),
}

/// What a call asked for, one after another, and how it ended then.
#[derive(Debug, Drop)]
pub struct Course {
    pub asked: Vec<Asked>,
    pub end: Ask,
}

/// Carries a call out alone: each lock that it asks for is free, and each sector that it asks for is that of the image. Where the image
/// stands for a tree, the call ends as it does at this tree.
pub fn carry_out<P: Plan, S: Store>(
    alloc: Global,
    plan: &P,
    image: &Image<S>,
) -> Result<Course, NoMemory>
    requires geom { P.geom plan.now ≡ image.now.geom }
    requires names { HasNames (P.call plan.now) }
    ensures course { IfOk result (λ course. IsCourse (P.geom plan.now) (P.answers plan.now) image.now.sectors course.asked.items course.end) }
    ensures right { IfOk result (λ course. (t : FileTree) → StandsFor (P.geom plan.now) image.now.sectors t
        → EndsRight (P.geom plan.now) (P.call plan.now) image.now.sectors t course.end) }
    ensures few { IfOk result (λ course. length course.asked.items ≤ 280) }
{
    let _geom = image.geom();
    let mut seen = Seen::new(alloc)?;
    let mut asked = Vec::with_capacity(alloc, 280).map_err(|_| NoMemory)?;
    'asks: loop {
        match plan.ask(&seen) {
            Ask::Lock(object) => {
                seen.lock(object);
                asked.push_reserved(Asked::Lock(object));
            }
            Ask::Read(at) => {
                let Some(sector) = image.sector(at) else {
                    unreachable!()
                };
                seen.put(at, &sector);
                asked.push_reserved(Asked::Read(at));
            }
            end => return Ok(Course { asked, end }),
        }
    }
}
