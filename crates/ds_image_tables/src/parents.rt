//! Which objects are reached from the root.
ghost use Rattle.std.specs.Prelude.{
  ◌≡◌,
  ◌<◌,
  ◌≤◌,
  ◌↔◌,
  ◌+◌,
  ℕ,
  Bool,
  true,
  false,
  [],
  ◌∷◌,
  ◌++◌,
  Option,
  None,
  Some,
  IsTrue,
  IfOk,
  MatchOption,
  length,
  take,
};
ghost use Rattle.ds_image_tables.specs.Parents.{parent_of, LeadsToRoot, AreReached};
ghost use Rattle.ds_image_tables.specs.ParentWalks.{walk_to, led, AreSettled};

use ds_base::NoMemory;
use std::alloc::Global;

/// Whether each object is reached from the root, object 0: its parent is, or it is the root. In linear time.
pub fn reached(alloc: Global, parents: &[Option<u32>]) -> Result<Vec<bool>, NoMemory>
    ensures { IfOk result (λ reached. AreReached parents.now reached.items) }
{
    if parents.is_empty() {
        return Ok(Vec::new(alloc));
    }
    let Ok(mut seen) = vec![in alloc; None; parents.len()] else {
        return Err(NoMemory);
    };
    let leads = walks(alloc, parents, &mut seen)?;
    reached_by(alloc, &seen, &leads)
}

/// Walks from each object that no walk came to before, each walk with the number of the object where it begins; says of
/// each number whether its walk led to the root. Walk 0 is at the root.
fn walks(
    alloc: Global,
    parents: &[Option<u32>],
    seen: &mut [Option<usize>],
) -> Result<Vec<bool>, NoMemory>
    requires some { 0 < length parents.now }
    requires count { length seen.old ≡ length parents.now }
    requires unseen { (o : ℕ) → walk_to seen.old o ≡ None }
    ensures settled { IfOk result (λ leads. AreSettled parents.now seen.new leads.items) }
    ensures count { IfOk result (λ leads. length leads.items ≡ length parents.now) }
{
    seen[0] = Some(0);
    let mut leads = Vec::new(alloc);
    leads.push(true)?;
    for start in 1..parents.len() {
        let led = next_walk(parents, seen, &leads);
        leads.push(led)?;
    }
    Ok(leads)
}

/// Walks from the first object whose number no walk has, unless a walk came to it; says whether it walked to the root.
fn next_walk(parents: &[Option<u32>], seen: &mut [Option<usize>], leads: &[bool]) -> bool
    requires settled { AreSettled parents.now seen.old leads.now }
    requires within { length leads.now < length parents.now }
    ensures { AreSettled parents.now seen.new (leads.now ++ result ∷ []) }
{
    if seen[leads.len()].is_some() {
        return false;
    }
    walk(parents, seen, leads)
}

/// Follows parents from the first object whose number no walk has, up to an object that a walk came to before; says whether
/// they lead to the root.
fn walk(parents: &[Option<u32>], seen: &mut [Option<usize>], leads: &[bool]) -> bool
    requires settled { AreSettled parents.now seen.old leads.now }
    requires within { length leads.now < length parents.now }
    requires unseen { walk_to seen.old (length leads.now) ≡ None }
    ensures { AreSettled parents.now seen.new (leads.now ++ result ∷ []) }
{
    let start = leads.len();
    let mut object = start;
    while seen[object].is_none() {
        seen[object] = Some(start);
        let Some(parent) = parent_within(parents, object) else {
            return false;
        };
        object = parent;
    }
    led_by(leads, seen[object])
}

/// The parent of an object, if it has one that is an object too.
fn parent_within(parents: &[Option<u32>], object: usize) -> Option<usize>
    requires { object < length parents.now }
    ensures { MatchOption result
        ((p : ℕ) → parent_of parents.now object ≡ Some p → length parents.now ≤ p)
        (λ p. (parent_of parents.now object ≡ Some p) × (p < length parents.now)) }
{
    match parents[object] {
        Some(parent) if (parent as usize) < parents.len() => Some(parent as usize),
        _ => None,
    }
}

/// Whether a walk led to the root; none did, and one that is not yet settled hasn't.
fn led_by(leads: &[bool], walk: Option<usize>) -> bool
    ensures none { walk ≡ None → result ≡ false }
    ensures some { (w : ℕ) → walk ≡ Some w → result ≡ led leads.now w }
{
    match walk {
        Some(walk) if walk < leads.len() => leads[walk],
        _ => false,
    }
}

/// Whether each object was come to by a walk that led to the root.
fn reached_by(alloc: Global, seen: &[Option<usize>], leads: &[bool]) -> Result<Vec<bool>, NoMemory>
    ensures count { IfOk result (λ reached. length reached.items ≡ length seen.now) }
    ensures exact { IfOk result (λ reached. (o w : ℕ) → walk_to seen.now o ≡ Some w → led reached.items o ≡ led leads.now w) }
{
    let mut reached = Vec::new(alloc);
    for walk in seen {
        reached.push(led_by(leads, *walk))?;
    }
    Ok(reached)
}
