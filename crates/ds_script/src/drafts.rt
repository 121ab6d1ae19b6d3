//! A scenario of which some lines are read.
#![tactic(auto)]

ghost use Rattle.std.specs.Prelude.{◌≡◌, ◌+◌, ◌≤◌, ◌<◌, OnOk, OnErr, IfOk, length, None};
ghost use Rattle.ds_tree.specs.Grammar.{Does, Host, Step, most_directives, most_hosts, most_steps};
ghost use Rattle.ds_script.specs.Entries.{IsOfHosts, item_of};
ghost use Rattle.ds_script.specs.Passing.{AreNumbered};
ghost use Rattle.ds_script.specs.Reading.{count_of_directives, count_of_turns, is_begun, limit_at, scenario_of, with_item};

use crate::faults::What;
use crate::items::Entry;
use crate::limits::{MOST_DIRECTIVES, MOST_HOSTS, MOST_STEPS};
use ds_base::{Geom, HostNo, NoMemory, Word};
use ds_tree::{Directive, HostPlan, Items, Scenario};
use std::alloc::Global;
use std::marker::Model;
use uuid::Uuid;

/// A scenario as far as its lines are read, within the limits: the directives of all hosts and the turns that its `step`
/// lines ask for are counted beside it.
#[derive(Drop)]
pub struct Draft {
    volume: Uuid,
    geom: Geom,
    hosts: Vec<HostPlan>,
    steps: Items<(HostNo, u32)>,
    directives: u32,
    turns: u32,
}

impl Model for Draft {
    ghost use Rattle.ds_tree.specs.declared.scenarios.Scenario.{Scenario};
    ghost use Rattle.ds_script.specs.Drafts.{IsCounted};

    ghost Value = { Scenario };

    ghost view = { λ d. record { volume = d.volume; geom = d.geom; hosts = d.hosts.items; steps = d.steps } };

    ghost invariant = { λ d. IsCounted (record { volume = d.volume; geom = d.geom; hosts = d.hosts.items; steps = d.steps }) d.directives d.turns };
}

impl Draft {
    /// A scenario of one volume line.
    pub fn new(alloc: Global, volume: Uuid, geom: Geom) -> Draft
        ensures { result ≡ scenario_of (volume, geom) }
    {
        Draft {
            volume,
            geom,
            hosts: Vec::new(alloc),
            steps: Items::new(alloc),
            directives: 0,
            turns: 0,
        }
    }

    pub fn hosts(&self) -> &[HostPlan]
        ensures hosts { result.now ≡ self.now.hosts }
        ensures few { length result.now ≤ most_hosts }
    {
        self.hosts.as_slice()
    }

    /// Whether a directive or a `step` line has come.
    pub fn is_begun(&self) -> bool
        ensures { result ≡ is_begun self.now }
    {
        self.directives > 0 || !self.steps.as_slice().is_empty()
    }

    /// The limit that one entry more passes.
    pub fn limit(&self, entry: &Entry) -> Option<What>
        ensures { result ≡ limit_at self.now (item_of entry.now) }
    {
        match entry {
            Entry::Host { .. } => (self.hosts.len() >= MOST_HOSTS).then_some(What::Hosts),
            Entry::Does { .. } => (self.directives >= MOST_DIRECTIVES).then_some(What::Directives),
            Entry::Step { turns, .. } => (*turns > MOST_STEPS - self.turns).then_some(What::Steps),
        }
    }

    /// Adds an entry.
    pub fn add(&mut self, alloc: Global, entry: Entry) -> Result<(), NoMemory>
        requires known { IsOfHosts (length self.old.hosts) (item_of entry) }
        requires room { limit_at self.old (item_of entry) ≡ None }
        ensures { OnOk result (self.new ≡ with_item self.old (item_of entry)) }
    {
        match entry {
            Entry::Host { name } => self.add_host(alloc, name),
            Entry::Does { host, directive } => self.add_directive(host, directive),
            Entry::Step { host, turns } => self.add_step(host, turns),
        }
    }

    fn add_host(&mut self, alloc: Global, name: Word) -> Result<(), NoMemory>
        requires { length self.old.hosts < most_hosts }
        ensures { OnOk result (self.new ≡ with_item self.old (Host name)) }
    {
        let list = Items::new(alloc);
        self.hosts
            .push(HostPlan { name, list })
            .map_err(|_| NoMemory)
    }

    fn add_directive(&mut self, host: HostNo, directive: Directive) -> Result<(), NoMemory>
        requires within { host < length self.old.hosts }
        requires room { count_of_directives self.old < most_directives }
        ensures { OnOk result (self.new ≡ with_item self.old (Does host directive)) }
    {
        self.hosts[usize::from(host)].list.push(directive)?;
        self.directives += 1;
        Ok(())
    }

    fn add_step(&mut self, host: HostNo, turns: u32) -> Result<(), NoMemory>
        requires { count_of_turns self.old + turns ≤ most_steps }
        ensures { OnOk result (self.new ≡ with_item self.old (Step host turns)) }
    {
        self.steps.push((host, turns))?;
        self.turns += turns;
        Ok(())
    }

    /// The scenario of the lines so far.
    #[tactic(auto, using(crate::proofs::Edits::numbered_within))]
    pub fn into_scenario(self, alloc: Global) -> Result<Scenario, NoMemory>
        ensures value { IfOk result (λ s. s ≡ self) }
        ensures numbered { IfOk result (λ s. AreNumbered s.hosts) }
    {
        let Draft {
            volume,
            geom,
            hosts: plans,
            steps,
            directives: _,
            turns: _,
        } = self;
        let hosts = all_of(alloc, plans)?;
        Ok(Scenario {
            volume,
            geom,
            hosts,
            steps,
        })
    }
}

fn all_of(alloc: Global, plans: Vec<HostPlan>) -> Result<Items<HostPlan>, NoMemory>
    ensures { IfOk result (λ items. items ≡ plans.items) }
{
    let mut items = Items::new(alloc);
    for plan in plans {
        items.push(plan)?;
    }
    Ok(items)
}
