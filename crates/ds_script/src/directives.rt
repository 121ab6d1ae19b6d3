//! The directives of a host: each from what stands behind its first word.
#![tactic(auto)]

ghost use Rattle.std.specs.Prelude.{◌≡◌, ◌≤◌, Some, None, length};
ghost use Rattle.ds_tree.specs.Grammar.{most_hosts, names_of};
ghost use Rattle.ds_tree.specs.Lines.{words_of};
ghost use Rattle.ds_tree.specs.declared.scenarios.Directive.{Directive};
ghost use Rattle.ds_script.specs.Reading.{arming_named, awaited_at, binding_on_tree, call_at, close_at, crash_at, create_at, directive_at, directive_named, fail_at, get_at, hold_at, list_at, lookup_at, map_at, mkdir_at, on_tree, open_at, other_named, put_at, remove_at, rename_at, resize_at, rmdir_at, stat_at, tick_at, unbound, wait_at};
ghost use Rattle.ds_script.specs.Results.{Gives};

use crate::faults::LineFault;
use crate::fields::{
    ended, take_after, take_bind, take_bytes, take_host, take_key, take_landing, take_number,
    take_point, take_word,
};
use crate::limits::{MOST_DIRECTIVES, MOST_TICKS};
use ds_base::HostNo;
use ds_tree::{CallKind, CallOf, Directive, HostCallOf, HostPlan, Spoken, Var};

/// A directive.
#[tactic(auto, unfolding(crate::specs::Reading::directive_at))]
pub fn take_directive(hosts: &[HostPlan], line: &[u8]) -> Result<Directive, LineFault>
    requires { length hosts.now ≤ most_hosts }
    ensures { Gives (λ x. x) result (directive_at (names_of hosts.now) (words_of line.now)) }
{
    let (word, rest) = take_bytes(line)?;
    directive_named(hosts, word, rest)
}

#[tactic(auto, unfolding(crate::specs::Reading::directive_named))]
fn directive_named(hosts: &[HostPlan], word: &[u8], rest: &[u8]) -> Result<Directive, LineFault>
    requires { length hosts.now ≤ most_hosts }
    ensures { Gives (λ x. x) result (directive_named (names_of hosts.now) word.now (words_of rest.now)) }
{
    match CallKind::named(word) {
        Some(kind) => take_call(kind, rest),
        None => arming_named(hosts, word, rest),
    }
}

/// A call of this kind.
#[tactic(auto, unfolding(crate::specs::Reading::call_at, crate::specs::Reading::register_at, crate::specs::Reading::unregister_at, crate::specs::Reading::beat_at, crate::specs::Reading::scan_at))]
fn take_call(kind: CallKind, rest: &[u8]) -> Result<Directive, LineFault>
    ensures { Gives (λ x. x) result (call_at kind (words_of rest.now)) }
{
    match kind {
        CallKind::Register => ended(unbound(HostCallOf::Register), rest),
        CallKind::Unregister => ended(unbound(HostCallOf::Unregister), rest),
        CallKind::Beat => ended(unbound(HostCallOf::Beat), rest),
        CallKind::Scan => ended(unbound(HostCallOf::Scan), rest),
        CallKind::Mkdir => take_mkdir(rest),
        CallKind::Create => take_create(rest),
        CallKind::Lookup => take_lookup(rest),
        CallKind::List => take_list(rest),
        CallKind::Stat => take_stat(rest),
        CallKind::Map => take_map(rest),
        CallKind::Resize => take_resize(rest),
        CallKind::Remove => take_remove(rest),
        CallKind::Rmdir => take_rmdir(rest),
        CallKind::Rename => take_rename(rest),
        CallKind::Open => take_open(rest),
        CallKind::Close => take_close(rest),
        CallKind::Put => take_put(rest),
        CallKind::Get => take_get(rest),
    }
}

#[tactic(auto, unfolding(crate::specs::Reading::arming_named))]
fn arming_named(hosts: &[HostPlan], word: &[u8], rest: &[u8]) -> Result<Directive, LineFault>
    requires { length hosts.now ≤ most_hosts }
    ensures { Gives (λ x. x) result (arming_named (names_of hosts.now) word.now (words_of rest.now)) }
{
    if word == b"hold".as_slice() {
        return take_hold(hosts, rest);
    }
    if word == b"crash".as_slice() {
        return take_crash(rest);
    }
    if word == b"fail".as_slice() {
        return take_fail(rest);
    }
    other_named(hosts, word, rest)
}

#[tactic(auto, unfolding(crate::specs::Reading::other_named, crate::specs::Reading::die_at, crate::specs::Reading::return_at))]
fn other_named(hosts: &[HostPlan], word: &[u8], rest: &[u8]) -> Result<Directive, LineFault>
    requires { length hosts.now ≤ most_hosts }
    ensures { Gives (λ x. x) result (other_named (names_of hosts.now) word.now (words_of rest.now)) }
{
    if word == b"tick".as_slice() {
        return take_tick(rest);
    }
    if word == b"wait".as_slice() {
        return take_wait(hosts, rest);
    }
    if word == b"die".as_slice() {
        return ended(Directive::Die, rest);
    }
    if word == b"return".as_slice() {
        return ended(Directive::Return, rest);
    }
    Err(LineFault::Word)
}

/// The directive of a call whose reply binds no variable.
fn unbound(call: HostCallOf<Spoken>) -> Directive
    ensures { result ≡ unbound call }
{
    Directive::Call { call, bind: None }
}

/// The same of a call on the tree.
fn on_tree(call: CallOf<Spoken>) -> Directive
    ensures { result ≡ on_tree call }
{
    unbound(HostCallOf::Tree(call))
}

/// A call on the tree whose reply may bind a variable.
fn binding_on_tree(call: CallOf<Spoken>, bind: Option<Var>) -> Directive
    ensures { result ≡ binding_on_tree call bind }
{
    Directive::Call {
        call: HostCallOf::Tree(call),
        bind,
    }
}

#[tactic(auto, unfolding(crate::specs::Reading::mkdir_at))]
fn take_mkdir(line: &[u8]) -> Result<Directive, LineFault>
    ensures { Gives (λ x. x) result (mkdir_at (words_of line.now)) }
{
    let (dir, rest) = take_key(line)?;
    let (name, rest) = take_word(rest)?;
    let (bind, rest) = take_bind(rest)?;
    ended(binding_on_tree(CallOf::Mkdir { dir, name }, bind), rest)
}

#[tactic(auto, unfolding(crate::specs::Reading::create_at))]
fn take_create(line: &[u8]) -> Result<Directive, LineFault>
    ensures { Gives (λ x. x) result (create_at (words_of line.now)) }
{
    let (dir, rest) = take_key(line)?;
    let (name, rest) = take_word(rest)?;
    let (bind, rest) = take_bind(rest)?;
    ended(binding_on_tree(CallOf::Create { dir, name }, bind), rest)
}

#[tactic(auto, unfolding(crate::specs::Reading::lookup_at))]
fn take_lookup(line: &[u8]) -> Result<Directive, LineFault>
    ensures { Gives (λ x. x) result (lookup_at (words_of line.now)) }
{
    let (dir, rest) = take_key(line)?;
    let (name, rest) = take_word(rest)?;
    let (bind, rest) = take_bind(rest)?;
    ended(binding_on_tree(CallOf::Lookup { dir, name }, bind), rest)
}

#[tactic(auto, unfolding(crate::specs::Reading::list_at))]
fn take_list(line: &[u8]) -> Result<Directive, LineFault>
    ensures { Gives (λ x. x) result (list_at (words_of line.now)) }
{
    let (dir, rest) = take_key(line)?;
    let (after, rest) = take_after(rest)?;
    ended(on_tree(CallOf::List { dir, after }), rest)
}

#[tactic(auto, unfolding(crate::specs::Reading::stat_at))]
fn take_stat(line: &[u8]) -> Result<Directive, LineFault>
    ensures { Gives (λ x. x) result (stat_at (words_of line.now)) }
{
    let (key, rest) = take_key(line)?;
    ended(on_tree(CallOf::Stat { key }), rest)
}

#[tactic(auto, unfolding(crate::specs::Reading::map_at))]
fn take_map(line: &[u8]) -> Result<Directive, LineFault>
    ensures { Gives (λ x. x) result (map_at (words_of line.now)) }
{
    let (file, rest) = take_key(line)?;
    let (page, rest) = take_number(0, u32::MAX, rest)?;
    ended(on_tree(CallOf::Map { file, page }), rest)
}

#[tactic(auto, unfolding(crate::specs::Reading::resize_at))]
fn take_resize(line: &[u8]) -> Result<Directive, LineFault>
    ensures { Gives (λ x. x) result (resize_at (words_of line.now)) }
{
    let (file, rest) = take_key(line)?;
    let (blocks, rest) = take_number(0, u32::MAX, rest)?;
    ended(on_tree(CallOf::Resize { file, blocks }), rest)
}

#[tactic(auto, unfolding(crate::specs::Reading::remove_at))]
fn take_remove(line: &[u8]) -> Result<Directive, LineFault>
    ensures { Gives (λ x. x) result (remove_at (words_of line.now)) }
{
    let (dir, rest) = take_key(line)?;
    let (name, rest) = take_word(rest)?;
    ended(on_tree(CallOf::Remove { dir, name }), rest)
}

#[tactic(auto, unfolding(crate::specs::Reading::rmdir_at))]
fn take_rmdir(line: &[u8]) -> Result<Directive, LineFault>
    ensures { Gives (λ x. x) result (rmdir_at (words_of line.now)) }
{
    let (dir, rest) = take_key(line)?;
    let (name, rest) = take_word(rest)?;
    ended(on_tree(CallOf::Rmdir { dir, name }), rest)
}

#[tactic(auto, unfolding(crate::specs::Reading::rename_at))]
fn take_rename(line: &[u8]) -> Result<Directive, LineFault>
    ensures { Gives (λ x. x) result (rename_at (words_of line.now)) }
{
    let (dir, rest) = take_key(line)?;
    let (name, rest) = take_word(rest)?;
    let (to, rest) = take_key(rest)?;
    let (fresh, rest) = take_word(rest)?;
    let directive = on_tree(CallOf::Rename {
        dir,
        name,
        to,
        fresh,
    });
    ended(directive, rest)
}

#[tactic(auto, unfolding(crate::specs::Reading::open_at))]
fn take_open(line: &[u8]) -> Result<Directive, LineFault>
    ensures { Gives (λ x. x) result (open_at (words_of line.now)) }
{
    let (file, rest) = take_key(line)?;
    ended(on_tree(CallOf::OpenFile { file }), rest)
}

#[tactic(auto, unfolding(crate::specs::Reading::close_at))]
fn take_close(line: &[u8]) -> Result<Directive, LineFault>
    ensures { Gives (λ x. x) result (close_at (words_of line.now)) }
{
    let (file, rest) = take_key(line)?;
    ended(unbound(HostCallOf::Close { file }), rest)
}

#[tactic(auto, unfolding(crate::specs::Reading::put_at))]
fn take_put(line: &[u8]) -> Result<Directive, LineFault>
    ensures { Gives (λ x. x) result (put_at (words_of line.now)) }
{
    let (file, rest) = take_key(line)?;
    let (sector, rest) = take_number(0, u32::MAX, rest)?;
    let (fill, rest) = take_number(0, 255, rest)?;
    let directive = unbound(HostCallOf::Put {
        file,
        sector,
        fill: fill as u8,
    });
    ended(directive, rest)
}

#[tactic(auto, unfolding(crate::specs::Reading::get_at))]
fn take_get(line: &[u8]) -> Result<Directive, LineFault>
    ensures { Gives (λ x. x) result (get_at (words_of line.now)) }
{
    let (file, rest) = take_key(line)?;
    let (sector, rest) = take_number(0, u32::MAX, rest)?;
    ended(unbound(HostCallOf::Get { file, sector }), rest)
}

#[tactic(auto, unfolding(crate::specs::Reading::hold_at))]
fn take_hold(hosts: &[HostPlan], line: &[u8]) -> Result<Directive, LineFault>
    requires { length hosts.now ≤ most_hosts }
    ensures { Gives (λ x. x) result (hold_at (names_of hosts.now) (words_of line.now)) }
{
    let (point, rest) = take_point(line)?;
    let ((host, directive), rest) = take_awaited(hosts, rest)?;
    let directive = Directive::Hold {
        point,
        host,
        directive,
    };
    ended(directive, rest)
}

#[tactic(auto, unfolding(crate::specs::Reading::crash_at))]
fn take_crash(line: &[u8]) -> Result<Directive, LineFault>
    ensures { Gives (λ x. x) result (crash_at (words_of line.now)) }
{
    let (point, rest) = take_point(line)?;
    ended(Directive::Crash { point }, rest)
}

#[tactic(auto, unfolding(crate::specs::Reading::fail_at))]
fn take_fail(line: &[u8]) -> Result<Directive, LineFault>
    ensures { Gives (λ x. x) result (fail_at (words_of line.now)) }
{
    let (point, rest) = take_point(line)?;
    let (landed, rest) = take_landing(rest)?;
    ended(Directive::Fail { point, landed }, rest)
}

#[tactic(auto, unfolding(crate::specs::Reading::tick_at))]
fn take_tick(line: &[u8]) -> Result<Directive, LineFault>
    ensures { Gives (λ x. x) result (tick_at (words_of line.now)) }
{
    let (ticks, rest) = take_number(1, MOST_TICKS, line)?;
    ended(Directive::Tick { ticks }, rest)
}

#[tactic(auto, unfolding(crate::specs::Reading::wait_at))]
fn take_wait(hosts: &[HostPlan], line: &[u8]) -> Result<Directive, LineFault>
    requires { length hosts.now ≤ most_hosts }
    ensures { Gives (λ x. x) result (wait_at (names_of hosts.now) (words_of line.now)) }
{
    let ((host, directive), rest) = take_awaited(hosts, line)?;
    ended(Directive::Wait { host, directive }, rest)
}

/// A host, and the number of one of its directives.
#[tactic(auto, unfolding(crate::specs::Reading::awaited_at))]
fn take_awaited<'a>(
    hosts: &[HostPlan],
    line: &'a [u8],
) -> Result<((HostNo, u32), &'a [u8]), LineFault>
    requires { length hosts.now ≤ most_hosts }
    ensures { Gives (λ x. (x.0, words_of x.1.now)) result (awaited_at (names_of hosts.now) (words_of line.now)) }
{
    let (host, rest) = take_host(hosts, line)?;
    let (directive, rest) = take_number(1, MOST_DIRECTIVES, rest)?;
    Ok(((host, directive), rest))
}
