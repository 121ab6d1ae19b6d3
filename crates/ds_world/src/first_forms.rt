//! Which scenarios can be run now.
ghost use Rattle.std.specs.Prelude.{◌≡◌, ℕ, ◌↔◌, ◌≤◌, ◌<◌, ◌∷◌, None, Some, IsTrue, MatchOption, length, if◌then◌else◌};
ghost use Rattle.ds_base.specs.Names.{IsName};
ghost use Rattle.ds_tree.specs.declared.calls.HostCallOf.TheVariants as host_calls;
ghost use Rattle.ds_tree.specs.declared.scenarios.Directive.TheVariants as directives;
ghost use Rattle.ds_tree.specs.Grammar.{IsScenario};
ghost use Rattle.ds_tree.specs.FirstForm.{IsFirstForm, IsFirstList, IsFirstDirective, IsFirstBreak, BreaksAt, NotBuiltAt, first_geom, register, is_create};

use ds_base::{Geom, HostNo, Name, Word};
use ds_tree::{CallOf, Directive, HostCallOf, Scenario, Spoken};

/// The geometry of the volumes that can be run now.
const FIRST_GEOM: Geom = Geom {
    slots: 4,
    block: 1,
    clusters: [1, 1, 1, 1],
    items: [16, 8, 8, 64],
};

/// Where a scenario can't be run now: at host 0 and directive 0 for its geometry, at host 1 and directive 0 for a second
/// host, and else at the first directive of its one host that breaks the form, counted from 1. `None` where it can.
pub fn not_built(scenario: &Scenario) -> Option<(HostNo, u32)>
    requires { IsScenario scenario.now }
    ensures told { MatchOption result (IsFirstForm scenario.now) (λ at. NotBuiltAt scenario.now at.0 at.1) }
    ensures only { (host directive : ℕ) → NotBuiltAt scenario.now host directive → result ≡ Some (host, directive) }
    ensures none { IsFirstForm scenario.now → result ≡ None }
{
    first_break(scenario)
}

fn first_break(scenario: &Scenario) -> Option<(HostNo, u32)>
    requires { IsScenario scenario.now }
    ensures { MatchOption result (IsFirstForm scenario.now) (λ at. NotBuiltAt scenario.now at.0 at.1) }
{
    if !is_first_geom(&scenario.geom) {
        return Some((0, 0));
    }
    let (plan, others) = scenario.hosts.as_slice().split_first()?;
    if !others.is_empty() {
        return Some((1, 0));
    }
    let directive = list_break(plan.list.as_slice())?;
    Some((0, directive))
}

/// The first directive of a list that breaks the form.
pub(crate) fn list_break(list: &[Directive]) -> Option<u32>
    requires { length list.now ≤ 4096 }
    ensures { MatchOption result (IsFirstList list.now) (λ directive. BreaksAt list.now directive) }
{
    match list.split_first() {
        Some((first, calls)) => {
            if is_register(first) {
                call_break(calls)
            } else {
                Some(1)
            }
        }
        None => Some(1),
    }
}

/// The first directive behind a registration that breaks the form.
fn call_break(calls: &[Directive]) -> Option<u32>
    requires { length calls.now < 4096 }
    ensures { MatchOption result (IsFirstList (register ∷ calls.now)) (λ directive. IsFirstBreak (register ∷ calls.now) directive) }
{
    let mut creates = 0;
    for (i, call) in calls.iter().enumerate() {
        creates += creates_of(call);
        if creates > 4 || !is_root_call(call) {
            return Some(i as u32 + 2);
        }
    }
    None
}

fn is_first_geom(geom: &Geom) -> bool
    ensures { IsTrue result ↔ (geom.now ≡ first_geom) }
{
    *geom == FIRST_GEOM
}

fn is_register(directive: &Directive) -> bool
    ensures { IsTrue result ↔ (directive.now ≡ register) }
{
    match directive {
        Directive::Call { call, bind } => match call {
            HostCallOf::Register => bind.is_none(),
            _ => false,
        },
        _ => false,
    }
}

/// 1 for a create, else 0.
fn creates_of(directive: &Directive) -> u32
    ensures { result ≡ (if is_create directive.now then 1 else 0) }
{
    u32::from(is_create(directive))
}

fn is_create(directive: &Directive) -> bool
    ensures { result ≡ is_create directive.now }
{
    match directive {
        Directive::Call { call, .. } => match call {
            HostCallOf::Tree(call) => matches!(call, CallOf::Create { .. }),
            _ => false,
        },
        _ => false,
    }
}

/// Whether a directive creates or looks up a name in the root.
fn is_root_call(directive: &Directive) -> bool
    ensures { IsTrue result ↔ IsFirstDirective directive.now }
{
    match directive {
        Directive::Call { call, bind } => match call {
            HostCallOf::Tree(call) => bind.is_none() && is_in_root(call),
            _ => false,
        },
        _ => false,
    }
}

fn is_in_root(call: &CallOf<Spoken>) -> bool
    ensures { IsTrue result ↔ IsFirstDirective (directives.Call (host_calls.Tree call.now) None) }
{
    match call {
        CallOf::Create { dir, name } => is_root(dir) && is_name(name),
        CallOf::Lookup { dir, name } => is_root(dir) && is_name(name),
        _ => false,
    }
}

fn is_root(dir: &Spoken) -> bool
    ensures { IsTrue result ↔ (dir.now ≡ Spoken.Root) }
{
    matches!(dir, Spoken::Root)
}

fn is_name(word: &Word) -> bool
    ensures { IsTrue result ↔ IsName word.now }
{
    Name::read(word).is_some()
}
