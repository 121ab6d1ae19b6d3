//! The words of calls.
ghost use Rattle.std.specs.Prelude.{◌↔◌, IsTrue};
ghost use Rattle.ds_base.specs.Names.{IsName};
ghost use Rattle.ds_tree.specs.CallNames.{HasNames};

use ds_base::{Name, Word};
use ds_tree::{Call, CallOf};

fn is_name(word: &Word) -> bool
    ensures { IsTrue result ↔ IsName word.now }
{
    Name::read(word).is_some()
}

/// Whether each word of a call is a name.
pub fn has_names(call: &Call) -> bool
    ensures { IsTrue result ↔ HasNames call.now }
{
    match call {
        CallOf::Mkdir { name, .. } => is_name(name),
        CallOf::Create { name, .. } => is_name(name),
        CallOf::Lookup { name, .. } => is_name(name),
        CallOf::List { after, .. } => match after {
            Some(name) => is_name(name),
            None => true,
        },
        CallOf::Remove { name, .. } => is_name(name),
        CallOf::Rmdir { name, .. } => is_name(name),
        CallOf::Rename { name, fresh, .. } => is_name(name) && is_name(fresh),
        _ => true,
    }
}
