//! Words, names, and the keys of objects.
ghost use Rattle.std.specs.Prelude.{◌≡◌, ◌≤◌, ◌↔◌, ◌⊎◌, [], ◌∷◌, length, IsSome, IfSome, IsTrue};
ghost use Rattle.std.specs.List.{list_all};
ghost use Rattle.ds_base.specs.Decoding.{IsDecoded};
ghost use Rattle.ds_base.specs.Names.{IsName, is_name_byte};

use crate::sectors::ObjNo;
use arrayvec::ArrayVec;
use std::marker::Model;

/// What a node of the file tree is.
#[derive(Clone, Copy, Debug, PartialEq, Eq)]
pub enum NodeKind {
    File,
    Dir,
}

/// One life of an object. The root is object 0 with birth 1; births begin at 1 and are at most 2^62.
#[derive(Clone, Copy, Debug, Default, PartialEq, Eq, PartialOrd, Ord)]
pub struct Key {
    pub object: ObjNo,
    pub birth: u64,
}

/// A list of at most 255 bytes.
#[derive(Clone, Debug, Drop, PartialEq, Eq, PartialOrd, Ord)]
pub struct Word {
    bytes: ArrayVec<u8, 255>,
}

impl Model for Word {
    ghost use Rattle.std.specs.Prelude.{ℕ, List};

    ghost Value = { List ℕ };

    ghost view = { λ w. w.bytes.items };

    ghost inverse = { λ bytes. record { bytes = record { items = bytes } } };
}

impl Word {
    /// The word of these bytes; `None` where there are more than 255.
    pub fn new(bytes: &[u8]) -> Option<Word>
        ensures fits { IsSome result ↔ (length bytes.now ≤ 255) }
        ensures value { IfSome result (λ word. word ≡ bytes.now) }
    {
        let mut word = ArrayVec::new();
        word.try_extend_from_slice(bytes).ok()?;
        Some(Word { bytes: word })
    }

    pub fn bytes(&self) -> &[u8]
        ensures { result.now ≡ self.now }
    {
        self.bytes.as_slice()
    }
}

/// A name of the file tree: 1 to 100 letters and digits of ASCII, dots, low lines and hyphens, and neither `.` nor `..`.
#[derive(Clone, Debug, Drop, PartialEq, Eq, PartialOrd, Ord)]
pub struct Name {
    bytes: ArrayVec<u8, 100>,
}

impl Model for Name {
    ghost use Rattle.std.specs.Prelude.{ℕ, List};
    ghost use Rattle.ds_base.specs.Names.{IsName};

    ghost Value = { List ℕ };

    ghost view = { λ n. n.bytes.items };

    ghost invariant = { λ n. IsName n.bytes.items };

    ghost inverse = { λ bytes. record { bytes = record { items = bytes } } };
}

/// A name for places of a list that no name stands in yet: `0`.
impl Default for Name {
    ghost use Rattle.std.specs.Prelude.{◌≡◌, [], ◌∷◌};

    ghost is_default = { λ n. n ≡ 48 ∷ [] };

    fn default() -> Self {
        let mut bytes = ArrayVec::new();
        bytes.push(b'0');
        Name { bytes }
    }
}

impl Name {
    /// The name that a word is, if it is one.
    pub fn read(word: &Word) -> Option<Name>
        ensures { IsDecoded result (λ name. IsName name × (name ≡ word.now)) }
    {
        Name::from_bytes(word.bytes())
    }

    /// The name that these bytes are, if they are one.
    pub fn from_bytes(bytes: &[u8]) -> Option<Name>
        ensures { IsDecoded result (λ name. IsName name × (name ≡ bytes.now)) }
    {
        if !is_name(bytes) {
            return None;
        }
        let mut name = ArrayVec::new();
        name.try_extend_from_slice(bytes).ok()?;
        Some(Name { bytes: name })
    }

    /// The name that a word is.
    pub fn of_word(word: &Word) -> Name
        requires { IsName word.now }
        ensures { result ≡ word.now }
    {
        let Some(name) = Name::read(word) else {
            unreachable!()
        };
        name
    }

    /// The same name again; it takes no memory.
    pub fn copy(&self) -> Name
        ensures same { result ≡ self.now }
        ensures named { IsName self.now }
    {
        let Some(copy) = Name::from_bytes(self.bytes()) else {
            unreachable!()
        };
        copy
    }

    pub fn bytes(&self) -> &[u8]
        ensures value { result.now ≡ self.now }
        ensures name { IsName result.now }
    {
        self.bytes.as_slice()
    }
}

fn is_name_byte(b: u8) -> bool
    ensures { result ≡ is_name_byte b }
{
    b.is_ascii_lowercase()
        || b.is_ascii_uppercase()
        || b.is_ascii_digit()
        || b == b'.'
        || b == b'_'
        || b == b'-'
}

fn is_name(bytes: &[u8]) -> bool
    ensures { IsTrue result ↔ IsName bytes.now }
{
    if bytes.is_empty() || bytes.len() > 100 {
        return false;
    }
    are_name_bytes(bytes) && !is_dot_or_dots(bytes)
}

fn are_name_bytes(bytes: &[u8]) -> bool
    ensures { result ≡ list_all is_name_byte bytes.now }
{
    bytes.iter().all(|b| is_name_byte(*b))
}

fn is_dot_or_dots(bytes: &[u8]) -> bool
    ensures { IsTrue result ↔ ((bytes.now ≡ 46 ∷ []) ⊎ (bytes.now ≡ 46 ∷ 46 ∷ [])) }
{
    matches!(bytes, [b'.'] | [b'.', b'.'])
}
