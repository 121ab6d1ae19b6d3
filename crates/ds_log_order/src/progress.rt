//! How far each host has come with its directives, and whose turn is an event.
ghost use Rattle.std.specs.Prelude.{◌≡◌, ◌+◌, ◌^◌, ◌<◌, ◌≤◌, length, slice_get, min, nat_le};
ghost use Rattle.ds_tree.specs.PlainPass.{list_at};
ghost use Rattle.ds_log_order.specs.Progress.{
  advance,
  after_call,
  arm_after,
  at_start,
  before_return,
  crashes,
  died,
  fails,
  gone_on,
  is_return,
  point_of,
};
ghost use Rattle.ds_log_order.specs.Waiting.{Stands, bitten_of, progress_in, waits};

use ds_base::HostNo;
use ds_tree::{Directive, HostPlan, Point};

/// What is set for a host's next call; and a hold that has bitten: the host rests until this other host has finished the
/// directive with this number, or its whole list.
#[derive(Clone, Copy, Debug, PartialEq, Eq)]
pub enum Arm {
    Nothing,
    Hold {
        point: Point,
        host: HostNo,
        directive: u32,
    },
    Crash {
        point: Point,
    },
    Fail {
        point: Point,
        landed: bool,
    },
    Bitten {
        host: HostNo,
        directive: u32,
    },
}

/// How far a host has come: how many of its directives are finished; whether a call is under way, whether it was answered,
/// and how many commands it has sent; what is set; and whether the host is alive.
#[derive(Clone, Copy, Debug, PartialEq, Eq)]
pub struct Progress {
    pub finished: u32,
    pub calling: bool,
    pub answered: bool,
    pub sent: u32,
    pub arm: Arm,
    pub alive: bool,
}

/// What an event tells: whether its command is of the kind for which something is set, and whether it answered Got or Done;
/// whether the host died; whether the call and its tail have ended; and whether a reply was given.
#[derive(Clone, Copy, Debug, PartialEq, Eq)]
pub struct Mark {
    pub hit: bool,
    pub done: bool,
    pub dies: bool,
    pub ends: bool,
    pub replied: bool,
}

/// What the next turn of a host is: nothing, since its list is at its end or its wait or hold isn't met; or an event.
#[derive(Clone, Copy, Debug, PartialEq, Eq)]
pub enum Stance {
    Ended,
    Resting,
    Going,
}

impl Progress {
    /// That of a host that has done nothing.
    pub fn start() -> Progress
        ensures { result ≡ at_start }
    {
        Progress {
            finished: 0,
            calling: false,
            answered: false,
            sent: 0,
            arm: Arm::Nothing,
            alive: true,
        }
    }

    /// The kind of command at which what is set bites.
    pub fn point(&self) -> Option<Point>
        ensures { result ≡ point_of self.now.arm }
    {
        match self.arm {
            Arm::Hold { point, .. } => Some(point),
            Arm::Crash { point } => Some(point),
            Arm::Fail { point, .. } => Some(point),
            Arm::Nothing => None,
            Arm::Bitten { .. } => None,
        }
    }

    /// Whether the host dies at a command.
    pub fn crashes(&self, hit: bool, done: bool) -> bool
        ensures { result ≡ crashes self.now.arm hit done }
    {
        match self.arm {
            Arm::Crash { .. } => hit && done,
            _ => false,
        }
    }

    /// Whether a fault bites at a command, and then whether the command lands.
    pub fn fails(&self, hit: bool) -> Option<bool>
        ensures { result ≡ fails self.now.arm hit }
    {
        match self.arm {
            Arm::Fail { landed, .. } => if hit { Some(landed) } else { None },
            _ => None,
        }
    }

    /// The host for which the host waits now, if it does, and until which of its directives.
    pub fn waits(&self, list: &[Directive]) -> Option<(HostNo, u32)>
        ensures { result ≡ waits (slice_get list.now self.now.finished) self.now.arm }
    {
        match list.get(self.finished as usize) {
            Some(Directive::Wait { host, directive }) => Some((*host, *directive)),
            Some(Directive::Call { .. }) => bitten(&self.arm),
            _ => None,
        }
    }
}

impl Progress {
    /// How far the host is after an event in its next directive.
    pub fn advance(&self, list: &[Directive], mark: Mark) -> Progress
        requires within { self.now.finished < length list.now }
        requires numbered { length list.now < 2 ^ 32 }
        requires few { self.now.sent ≤ 4096 }
        ensures { result ≡ advance list.now (slice_get list.now self.now.finished) self.now mark }
    {
        match &list[self.finished as usize] {
            Directive::Call { .. } => self.after_call(list, mark),
            Directive::Hold {
                point,
                host,
                directive,
            } => self.gone_on(
                Arm::Hold {
                    point: *point,
                    host: *host,
                    directive: *directive,
                },
                self.alive,
            ),
            Directive::Crash { point } => self.gone_on(Arm::Crash { point: *point }, self.alive),
            Directive::Fail { point, landed } => self.gone_on(
                Arm::Fail {
                    point: *point,
                    landed: *landed,
                },
                self.alive,
            ),
            Directive::Die => self.died(list),
            Directive::Return => self.gone_on(Arm::Nothing, true),
            Directive::Tick { .. } => self.gone_on(Arm::Nothing, self.alive),
            Directive::Wait { .. } => self.gone_on(Arm::Nothing, self.alive),
        }
    }

    /// After an event of a call.
    fn after_call(&self, list: &[Directive], mark: Mark) -> Progress
        requires within { self.now.finished < length list.now }
        requires numbered { length list.now < 2 ^ 32 }
        requires few { self.now.sent ≤ 4096 }
        ensures { result ≡ after_call list.now self.now mark }
    {
        if mark.dies {
            return self.died(list);
        }
        if mark.ends {
            return self.gone_on(Arm::Nothing, self.alive);
        }
        Progress {
            finished: self.finished,
            calling: true,
            answered: self.answered || mark.replied,
            sent: self.sent + 1,
            arm: after_event(&self.arm, mark.hit, mark.done),
            alive: self.alive,
        }
    }

    /// At the next directive.
    fn gone_on(&self, arm: Arm, alive: bool) -> Progress
        requires { self.now.finished + 1 < 2 ^ 32 }
        ensures { result ≡ gone_on self.now arm alive }
    {
        Progress {
            finished: self.finished + 1,
            calling: false,
            answered: false,
            sent: 0,
            arm,
            alive,
        }
    }

    /// After a death.
    fn died(&self, list: &[Directive]) -> Progress
        requires within { self.now.finished < length list.now }
        requires numbered { length list.now < 2 ^ 32 }
        ensures { result ≡ died list.now self.now }
    {
        let next = self.finished + 1;
        Progress {
            finished: next + before_return(&list[next as usize..]),
            calling: false,
            answered: false,
            sent: 0,
            arm: Arm::Nothing,
            alive: false,
        }
    }
}

/// What is set after an event of a call.
fn after_event(arm: &Arm, hit: bool, done: bool) -> Arm
    ensures { result ≡ arm_after arm.now hit done }
{
    match *arm {
        Arm::Hold {
            host,
            directive,
            ..
        } if hit && done => Arm::Bitten { host, directive },
        Arm::Fail { .. } if hit => Arm::Nothing,
        _ => *arm,
    }
}

/// How many directives stand before the first return.
fn before_return(list: &[Directive]) -> u32
    requires { length list.now < 2 ^ 32 }
    ensures is { result ≡ before_return list.now }
    ensures within { result ≤ length list.now }
{
    for (i, directive) in list.iter().enumerate() {
        if is_return(directive) {
            return i as u32;
        }
    }
    list.len() as u32
}

/// Whether a directive is a return.
fn is_return(directive: &Directive) -> bool
    ensures { result ≡ is_return directive.now }
{
    matches!(directive, Directive::Return)
}

/// What the next turn of a host is, where the hosts have come so far.
pub fn stance_of(plans: &[HostPlan], kept: &[Progress], host: usize) -> Stance
    requires hosts { length kept.now ≡ length plans.now }
    requires known { host < length plans.now }
    ensures { Stands plans.now (progress_in kept.now) host result }
{
    let list = plans[host].list.as_slice();
    let progress = &kept[host];
    if progress.finished as usize >= list.len() {
        return Stance::Ended;
    }
    match progress.waits(list) {
        Some((other, number)) => {
            if has_finished(plans, kept, usize::from(other), number as usize) {
                Stance::Going
            } else {
                Stance::Resting
            }
        }
        None => Stance::Going,
    }
}

/// Whether a host has finished the directive with this number, or its whole list.
fn has_finished(plans: &[HostPlan], kept: &[Progress], host: usize, number: usize) -> bool
    requires { length kept.now ≡ length plans.now }
    ensures { result ≡ nat_le (min number (length (list_at plans.now host))) (progress_in kept.now host).finished }
{
    match plans.get(host) {
        Some(plan) => kept[host].finished as usize >= number.min(plan.list.as_slice().len()),
        None => true,
    }
}

/// For whom a hold that has bitten lets a host wait.
fn bitten(arm: &Arm) -> Option<(HostNo, u32)>
    ensures { result ≡ bitten_of arm.now }
{
    match *arm {
        Arm::Bitten { host, directive } => Some((host, directive)),
        _ => None,
    }
}
