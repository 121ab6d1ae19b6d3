//! The words of directives, each behind a blank.
#![tactic(auto)]

ghost use Rattle.std.specs.Prelude.{◌≡◌, ◌++◌, ◌∷◌, [], OnOk, codes, decimal};
ghost use Rattle.ds_tree.specs.CallKinds.{kind_word};
ghost use Rattle.ds_tree.specs.Grammar.{after_part, as_part, call_words, key_word, landing_word, names_of, point_word, tree_call_words};
ghost use Rattle.ds_script.specs.Printed.{behind_blanks, directive_words, name_at};

use ds_base::{HostNo, NoMemory, Word};
use ds_text::Text;
use ds_tree::{CallKind, CallOf, Directive, HostCallOf, HostPlan, Point, Spoken, Var};

pub fn write_directive(
    text: &mut Text,
    hosts: &[HostPlan],
    directive: &Directive,
) -> Result<(), NoMemory>
    ensures { OnOk result (text.new ≡ text.old ++ behind_blanks (directive_words (names_of hosts.now) directive.now)) }
{
    match directive {
        Directive::Call { call, bind } => {
            write_call(text, call)?;
            write_bind(text, bind)
        }
        Directive::Tick { ticks } => {
            text.word(b"tick")?;
            text.number_word(u64::from(*ticks))
        }
        Directive::Wait { host, directive } => {
            text.word(b"wait")?;
            write_awaited(text, hosts, *host, *directive)
        }
        Directive::Hold {
            point,
            host,
            directive,
        } => {
            text.word(b"hold")?;
            text.word(point_word(*point))?;
            write_awaited(text, hosts, *host, *directive)
        }
        Directive::Crash { point } => {
            text.word(b"crash")?;
            text.word(point_word(*point))
        }
        Directive::Fail { point, landed } => {
            text.word(b"fail")?;
            text.word(point_word(*point))?;
            text.word(landing_word(*landed))
        }
        Directive::Die => text.word(b"die"),
        Directive::Return => text.word(b"return"),
    }
}

fn write_call(text: &mut Text, call: &HostCallOf<Spoken>) -> Result<(), NoMemory>
    ensures { OnOk result (text.new ≡ text.old ++ behind_blanks (call_words call.now)) }
{
    match call {
        HostCallOf::Tree(call) => write_tree_call(text, call),
        HostCallOf::Register => text.word(CallKind::Register.word()),
        HostCallOf::Unregister => text.word(CallKind::Unregister.word()),
        HostCallOf::Beat => text.word(CallKind::Beat.word()),
        HostCallOf::Scan => text.word(CallKind::Scan.word()),
        HostCallOf::Close { file } => write_keyed(text, CallKind::Close, file),
        HostCallOf::Put { file, sector, fill } => {
            write_counted(text, CallKind::Put, file, *sector)?;
            text.number_word(u64::from(*fill))
        }
        HostCallOf::Get { file, sector } => write_counted(text, CallKind::Get, file, *sector),
    }
}

/// A call on the file tree. The reading of a block's number has no words: no text asks for it.
fn write_tree_call(text: &mut Text, call: &CallOf<Spoken>) -> Result<(), NoMemory>
    ensures { OnOk result (text.new ≡ text.old ++ behind_blanks (tree_call_words call.now)) }
{
    match call {
        CallOf::Mkdir { dir, name } => write_named(text, CallKind::Mkdir, dir, name),
        CallOf::Create { dir, name } => write_named(text, CallKind::Create, dir, name),
        CallOf::Lookup { dir, name } => write_named(text, CallKind::Lookup, dir, name),
        CallOf::List { dir, after } => {
            write_keyed(text, CallKind::List, dir)?;
            write_after(text, after)
        }
        CallOf::Stat { key } => write_keyed(text, CallKind::Stat, key),
        CallOf::Map { file, page } => write_counted(text, CallKind::Map, file, *page),
        CallOf::Resize { file, blocks } => write_counted(text, CallKind::Resize, file, *blocks),
        CallOf::Remove { dir, name } => write_named(text, CallKind::Remove, dir, name),
        CallOf::Rmdir { dir, name } => write_named(text, CallKind::Rmdir, dir, name),
        CallOf::Rename {
            dir,
            name,
            to,
            fresh,
        } => {
            write_named(text, CallKind::Rename, dir, name)?;
            text.word(key_word(to))?;
            text.word(fresh.bytes())
        }
        CallOf::OpenFile { file } => write_keyed(text, CallKind::Open, file),
        CallOf::At { .. } => Ok(()),
    }
}

/// The word of a call and a key.
fn write_keyed(text: &mut Text, kind: CallKind, key: &Spoken) -> Result<(), NoMemory>
    ensures { OnOk result (text.new ≡ text.old ++ behind_blanks (kind_word kind ∷ key_word key.now ∷ [])) }
{
    text.word(kind.word())?;
    text.word(key_word(key))
}

/// The word of a call, a key and a number.
fn write_counted(text: &mut Text, kind: CallKind, key: &Spoken, number: u32) -> Result<(), NoMemory>
    ensures { OnOk result (text.new ≡ text.old ++ behind_blanks (kind_word kind ∷ key_word key.now ∷ decimal number ∷ [])) }
{
    write_keyed(text, kind, key)?;
    text.number_word(u64::from(number))
}

/// The word of a call, a directory and a name in it.
fn write_named(text: &mut Text, kind: CallKind, dir: &Spoken, name: &Word) -> Result<(), NoMemory>
    ensures { OnOk result (text.new ≡ text.old ++ behind_blanks (kind_word kind ∷ key_word dir.now ∷ name.now ∷ [])) }
{
    write_keyed(text, kind, dir)?;
    text.word(name.bytes())
}

/// The variable that takes a key, if one does.
fn write_bind(text: &mut Text, bind: &Option<Var>) -> Result<(), NoMemory>
    ensures { OnOk result (text.new ≡ text.old ++ behind_blanks (as_part bind.now)) }
{
    match bind {
        None => Ok(()),
        Some(name) => {
            text.word(b"as")?;
            text.word(name.bytes())
        }
    }
}

/// The word behind which a list begins, if there is one.
fn write_after(text: &mut Text, after: &Option<Word>) -> Result<(), NoMemory>
    ensures { OnOk result (text.new ≡ text.old ++ behind_blanks (after_part after.now)) }
{
    match after {
        None => Ok(()),
        Some(name) => {
            text.word(b"after")?;
            text.word(name.bytes())
        }
    }
}

/// A host, and a number of a directive or of turns.
pub fn write_awaited(
    text: &mut Text,
    hosts: &[HostPlan],
    host: HostNo,
    number: u32,
) -> Result<(), NoMemory>
    ensures { OnOk result (text.new ≡ text.old ++ behind_blanks (name_at (names_of hosts.now) host ∷ decimal number ∷ [])) }
{
    text.word(name_of(hosts, host))?;
    text.number_word(u64::from(number))
}

/// The name of a host; none where there is no such host.
fn name_of(hosts: &[HostPlan], host: HostNo) -> &[u8]
    ensures { result.now ≡ name_at (names_of hosts.now) host }
{
    match hosts.get(usize::from(host)) {
        Some(plan) => plan.name.bytes(),
        None => &[],
    }
}

fn key_word(key: &Spoken) -> &[u8]
    ensures { result.now ≡ key_word key.now }
{
    match key {
        Spoken::Root => b"root",
        Spoken::Var(name) => name.bytes(),
    }
}

fn landing_word(landed: bool) -> &'static [u8]
    ensures { result.now ≡ landing_word landed }
{
    if landed { b"landed" } else { b"lost" }
}

fn point_word(point: Point) -> &'static [u8]
    ensures { result.now ≡ point_word point }
{
    match point {
        Point::Enter => b"enter",
        Point::Leave => b"leave",
        Point::Beat => b"beat",
        Point::Commit => b"commit",
        Point::Retire => b"retire",
        Point::Read => b"read",
        Point::Lock => b"lock",
        Point::Free => b"free",
        Point::Index => b"index",
        Point::Place => b"place",
        Point::Break => b"break",
        Point::Clear => b"clear",
    }
}
