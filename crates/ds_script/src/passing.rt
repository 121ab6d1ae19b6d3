//! Whether the directives of a scenario can all pass: the hosts are gone through in order, again and again, and each passes
//! its directives while it can.
ghost use Rattle.std.specs.Prelude.{◌≡◌, ℕ, ◌+◌, ◌≤◌, ◌<◌, ◌↔◌, length, sum, min, nat_le, replicate, slice_index, IsTrue, IfOk, MatchBool, false};
ghost use Rattle.ds_tree.specs.PlainPass.{list_at, wait_at, PassesAll, IsStuck};
ghost use Rattle.ds_script.specs.Passing.{AreNumbered, HasPassed, IsFree, IsSo, Rests, TellsLeft, hold_of};

use ds_base::{HostNo, NoMemory};
use ds_tree::{Directive, HostPlan, Scenario};
use std::alloc::Global;

/// Whether all directives of a scenario can pass, or the first host that comes to rest before its end, with the number of
/// the directive at which it rests. Hosts are counted from 0, directives from 1.
#[derive(Clone, Copy, Debug, PartialEq, Eq)]
pub enum Pass {
    Passed,
    Stuck { host: HostNo, directive: u32 },
}

/// Goes through the hosts of a scenario until a round passes nothing. A round looks once at each host, and once more for each
/// directive that it passes.
pub fn plain_pass(alloc: Global, scenario: &Scenario) -> Result<Pass, NoMemory>
    requires { AreNumbered scenario.now.hosts }
    ensures passed { IfOk result (λ pass. (pass ≡ Pass.Passed) ↔ PassesAll scenario.now.hosts) }
    ensures stuck { IfOk result (λ pass. (host directive : ℕ) → (pass ≡ Pass.Stuck host directive)
        ↔ IsStuck scenario.now.hosts host directive) }
{
    let plans = scenario.hosts.as_slice();
    let mut passed = zeros(alloc, plans.len())?;
    Ok(pass_all(plans, passed.as_mut_slice()))
}

/// The counts of so many hosts before anything passes.
fn zeros(alloc: Global, count: usize) -> Result<Vec<usize>, NoMemory>
    ensures { IfOk result (λ v. v.items ≡ replicate count 0) }
{
    vec![in alloc; 0usize; count].map_err(|_| NoMemory)
}

/// Goes through the hosts until none passes anything.
fn pass_all(plans: &[HostPlan], passed: &mut [usize]) -> Pass
    requires numbered { AreNumbered plans.now }
    requires passed { HasPassed plans.now passed.old }
    ensures { IsSo plans.now result }
{
    while pass_round(plans, passed) {}
    first_left(plans, passed)
}

/// Lets each host in order pass its directives while it can. Whether any passed.
fn pass_round(plans: &[HostPlan], passed: &mut [usize]) -> bool
    requires numbered { AreNumbered plans.now }
    requires passed { HasPassed plans.now passed.old }
    ensures keeps { HasPassed plans.now passed.new }
    ensures more { IsTrue result → sum passed.old < sum passed.new }
    ensures stops { result ≡ false → (host : ℕ) → Rests plans.now passed.new host }
{
    let mut any = false;
    for host in 0..plans.len() {
        if pass_host(plans, passed, host) {
            any = true;
        }
    }
    any
}

/// Lets a host pass its directives while it can. Whether any passed.
fn pass_host(plans: &[HostPlan], passed: &mut [usize], host: usize) -> bool
    requires numbered { AreNumbered plans.now }
    requires passed { HasPassed plans.now passed.old }
    requires within { host < length plans.now }
    ensures keeps { HasPassed plans.now passed.new }
    ensures more { IsTrue result → sum passed.old < sum passed.new }
    ensures rests { result ≡ false → (passed.new ≡ passed.old) × Rests plans.now passed.new host }
{
    let mut any = false;
    while can_pass(plans, passed, host) {
        passed[host] += 1;
        any = true;
    }
    any
}

/// Whether a host has a directive left that can pass now.
fn can_pass(plans: &[HostPlan], passed: &[usize], host: usize) -> bool
    requires hosts { length passed.now ≡ length plans.now }
    requires within { host < length plans.now }
    ensures { MatchBool result
        ((slice_index passed.now host < length (list_at plans.now host)) × IsFree plans.now passed.now host)
        (Rests plans.now passed.now host) }
{
    let list = plans[host].list.as_slice();
    let next = passed[host];
    if next >= list.len() {
        return false;
    }
    match wait_of(list, next) {
        None => true,
        Some((other, number)) => has_passed(plans, passed, usize::from(other), number as usize),
    }
}

/// The host and the number of its directive for which this directive waits.
fn wait_of(list: &[Directive], index: usize) -> Option<(HostNo, u32)>
    requires { index < length list.now }
    ensures { result ≡ wait_at list.now index }
{
    match &list[index] {
        Directive::Wait { host, directive } => Some((*host, *directive)),
        Directive::Call { .. } if index > 0 => held_by(&list[index - 1]),
        _ => None,
    }
}

/// What the call behind this directive waits for.
fn held_by(before: &Directive) -> Option<(HostNo, u32)>
    ensures { result ≡ hold_of before.now }
{
    match before {
        Directive::Hold {
            host,
            directive,
            ..
        } => Some((*host, *directive)),
        _ => None,
    }
}

/// Whether a host has passed the directive with this number, or its whole list.
fn has_passed(plans: &[HostPlan], passed: &[usize], host: usize, number: usize) -> bool
    requires { length passed.now ≡ length plans.now }
    ensures { result ≡ nat_le (min number (length (list_at plans.now host))) (slice_index passed.now host) }
{
    match plans.get(host) {
        Some(plan) => passed[host] >= number.min(plan.list.as_slice().len()),
        None => true,
    }
}

/// The first host that isn't at its end.
fn first_left(plans: &[HostPlan], passed: &[usize]) -> Pass
    requires numbered { AreNumbered plans.now }
    requires passed { HasPassed plans.now passed.now }
    ensures { TellsLeft plans.now passed.now result }
{
    for (host, plan) in plans.iter().enumerate() {
        if passed[host] < plan.list.as_slice().len() {
            return Pass::Stuck {
                host: host as HostNo,
                directive: (passed[host] + 1) as u32,
            };
        }
    }
    Pass::Passed
}
