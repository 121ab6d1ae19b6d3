//! The byte that says what a node is.
ghost use Rattle.std.specs.Prelude.{◌≡◌};
ghost use Rattle.ds_bytes.specs.NodeKinds.{kind_code, kind_of_code};

use ds_base::NodeKind;

pub fn code_of_kind(kind: Option<NodeKind>) -> u8
    ensures { result ≡ kind_code kind }
{
    match kind {
        None => 0,
        Some(NodeKind::File) => 1,
        Some(NodeKind::Dir) => 2,
    }
}

/// What the byte says; `None` where it says nothing.
pub fn kind_of_code(code: u8) -> Option<Option<NodeKind>>
    ensures { result ≡ kind_of_code code }
{
    match code {
        0 => Some(None),
        1 => Some(Some(NodeKind::File)),
        2 => Some(Some(NodeKind::Dir)),
        _ => None,
    }
}
