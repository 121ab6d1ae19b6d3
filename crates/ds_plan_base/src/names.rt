//! Names.
ghost use Rattle.std.specs.Prelude.{◌≡◌};
ghost use Rattle.ds_base.specs.Names.{IsName};

use ds_base::{Name, Word};

/// The name that a word is.
pub fn name_of(word: &Word) -> Name
    requires { IsName word.now }
    ensures { result ≡ word.now }
{
    let Some(name) = Name::read(word) else {
        unreachable!()
    };
    name
}

/// A copy of a name.
pub fn copy_of(name: &Name) -> Name
    ensures same { result ≡ name.now }
    ensures named { IsName name.now }
{
    let Some(copy) = Name::from_bytes(name.bytes()) else {
        unreachable!()
    };
    copy
}
