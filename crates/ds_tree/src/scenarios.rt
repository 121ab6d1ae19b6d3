//! Scenarios: a volume, its hosts, and what each host does.

ghost use Rattle.std.specs.Prelude.{◌≡◌, [], ◌∷◌, ◌++◌, OnOk, OnErr, IfOk};

use crate::calls::HostCallOf;
use crate::variables::{Spoken, Var};
use ds_base::{Geom, HostNo, NoMemory, Word};
use std::alloc::Global;
use std::marker::Model;
use uuid::Uuid;

/// A kind of command, at which a host may be held, die or meet a fault.
#[derive(Clone, Copy, Debug, PartialEq, Eq)]
pub enum Point {
    Enter,
    Leave,
    Beat,
    Commit,
    Retire,
    Read,
    Lock,
    Free,
    Index,
    Place,
    Break,
    Clear,
}

/// One thing that a host does. `bind` names the variable that takes the key that the reply gives; directives of a host
/// are counted from 1.
#[derive(Debug, Drop)]
pub enum Directive {
    Call {
        call: HostCallOf<Spoken>,
        bind: Option<Var>,
    },
    Tick {
        ticks: u32,
    },
    Wait {
        host: HostNo,
        directive: u32,
    },
    Hold {
        point: Point,
        host: HostNo,
        directive: u32,
    },
    Crash {
        point: Point,
    },
    Fail {
        point: Point,
        landed: bool,
    },
    Die,
    Return,
}

/// A growing list, which contracts see as a list.
#[derive(Debug, Drop)]
pub struct Items<T> {
    items: Vec<T>,
}

impl<T> Model for Items<T> {
    ghost use Rattle.std.specs.Prelude.{List};

    ghost Value = { List T };

    ghost view = { λ list. list.items.items };
}

impl<T> Items<T> {
    pub fn new(alloc: Global) -> Items<T>
        ensures { result ≡ [] }
    {
        Items {
            items: Vec::new(alloc),
        }
    }

    pub fn push(&mut self, item: T) -> Result<(), NoMemory>
    where
        T: Drop,
        ensures ok { OnOk result (self.new ≡ self.old ++ item ∷ []) }
        ensures err { OnErr result (self.new ≡ self.old) }
    {
        Ok(self.items.push(item)?)
    }

    pub fn as_slice(&self) -> &[T]
        ensures { result.now ≡ self.now }
    {
        self.items.as_slice()
    }
}

/// A host: its name, and what it does in order.
#[derive(Debug, Drop)]
pub struct HostPlan {
    pub name: Word,
    pub list: Items<Directive>,
}

/// A volume, its hosts, and the order of turns that `step` lines ask for: so many turns of a host.
#[derive(Debug, Drop)]
pub struct Scenario {
    pub volume: Uuid,
    pub geom: Geom,
    pub hosts: Items<HostPlan>,
    pub steps: Items<(HostNo, u32)>,
}

impl Scenario {
    /// A copy.
    pub fn copy(&self, alloc: Global) -> Result<Scenario, NoMemory>
        ensures { IfOk result (λ s. s ≡ self.now) }
    {
        let mut hosts = Items::new(alloc);
        for plan in self.hosts.as_slice() {
            hosts.push(plan.copy(alloc)?)?;
        }
        let mut steps = Items::new(alloc);
        for step in self.steps.as_slice() {
            steps.push(*step)?;
        }
        Ok(Scenario {
            volume: self.volume,
            geom: self.geom,
            hosts,
            steps,
        })
    }
}

impl HostPlan {
    /// A copy.
    pub fn copy(&self, alloc: Global) -> Result<HostPlan, NoMemory>
        ensures { IfOk result (λ plan. plan ≡ self.now) }
    {
        let mut list = Items::new(alloc);
        for directive in self.list.as_slice() {
            list.push(directive.copy()?)?;
        }
        let name = self.name.clone()?;
        Ok(HostPlan { name, list })
    }
}

impl Directive {
    /// A copy.
    pub fn copy(&self) -> Result<Directive, NoMemory>
        ensures { IfOk result (λ directive. directive ≡ self.now) }
    {
        Ok(match self {
            Directive::Call { call, bind } => Directive::Call {
                call: call.copy()?,
                bind: copy_of(bind)?,
            },
            Directive::Tick { ticks } => Directive::Tick { ticks: *ticks },
            Directive::Wait { host, directive } => Directive::Wait {
                host: *host,
                directive: *directive,
            },
            Directive::Hold {
                point,
                host,
                directive,
            } => Directive::Hold {
                point: *point,
                host: *host,
                directive: *directive,
            },
            Directive::Crash { point } => Directive::Crash { point: *point },
            Directive::Fail { point, landed } => Directive::Fail {
                point: *point,
                landed: *landed,
            },
            Directive::Die => Directive::Die,
            Directive::Return => Directive::Return,
        })
    }
}

fn copy_of(bind: &Option<Var>) -> Result<Option<Var>, NoMemory>
    ensures { IfOk result (λ copied. copied ≡ bind.now) }
{
    Ok(bind.clone()?)
}
