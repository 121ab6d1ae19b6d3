//! The variables of a scenario, which stand for keys.
ghost use Rattle.std.specs.Prelude.{◌≡◌, ◌↔◌, IfOk, IsTrue, codes};
ghost use Rattle.std.specs.List.{list_all};
ghost use Rattle.ds_base.specs.Decoding.{IsDecoded};
ghost use Rattle.ds_tree.specs.Variables.{IsVariable, is_lower_or_digit};

use arrayvec::ArrayVec;
use ds_base::NoMemory;
use std::marker::Model;

/// A variable: 1 to 16 lower-case letters and digits of ASCII that begin with a letter and aren't `root`.
#[derive(Clone, Debug, Drop, PartialEq, Eq)]
pub struct Var {
    bytes: ArrayVec<u8, 16>,
}

impl Model for Var {
    ghost use Rattle.std.specs.Prelude.{ℕ, List};
    ghost use Rattle.ds_tree.specs.Variables.{IsVariable};

    ghost Value = { List ℕ };

    ghost view = { λ v. v.bytes.items };

    ghost invariant = { λ v. IsVariable v.bytes.items };

    ghost inverse = { λ bytes. record { bytes = record { items = bytes } } };
}

impl Var {
    /// The variable that these bytes are, if they are one.
    pub fn new(bytes: &[u8]) -> Option<Var>
        ensures { IsDecoded result (λ var. IsVariable var × (var ≡ bytes.now)) }
    {
        if !is_variable(bytes) {
            return None;
        }
        let mut var = ArrayVec::new();
        var.try_extend_from_slice(bytes).ok()?;
        Some(Var { bytes: var })
    }

    pub fn bytes(&self) -> &[u8]
        ensures value { result.now ≡ self.now }
        ensures variable { IsVariable result.now }
    {
        self.bytes.as_slice()
    }
}

fn is_variable(bytes: &[u8]) -> bool
    ensures { IsTrue result ↔ IsVariable bytes.now }
{
    if bytes.is_empty() || bytes.len() > 16 {
        return false;
    }
    bytes[0].is_ascii_lowercase() && are_lower_or_digit(bytes) && !is_root(bytes)
}

fn are_lower_or_digit(bytes: &[u8]) -> bool
    ensures { result ≡ list_all is_lower_or_digit bytes.now }
{
    bytes.iter().all(|b| is_lower_or_digit(*b))
}

fn is_root(bytes: &[u8]) -> bool
    ensures { IsTrue result ↔ (bytes.now ≡ codes "root") }
{
    bytes == b"root".as_slice()
}

fn is_lower_or_digit(b: u8) -> bool
    ensures { result ≡ is_lower_or_digit b }
{
    b.is_ascii_lowercase() || b.is_ascii_digit()
}

/// A key as a scenario speaks of it.
#[derive(Clone, Debug, Drop, PartialEq, Eq)]
pub enum Spoken {
    Root,
    Var(Var),
}

impl Spoken {
    /// A copy.
    pub fn copy(&self) -> Result<Spoken, NoMemory>
        ensures { IfOk result (λ spoken. spoken ≡ self.now) }
    {
        Ok(self.clone()?)
    }
}
