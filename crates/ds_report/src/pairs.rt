//! Two numbers with a dot between them: keys, and the generations of slots.
ghost use Rattle.std.specs.Prelude.{◌≡◌, ◌++◌, OnOk};
ghost use Rattle.ds_report.specs.Answers.{pair_text};

use ds_base::{Key, NoMemory};
use ds_text::Text;

pub(crate) fn write_pair(text: &mut Text, first: u64, second: u64) -> Result<(), NoMemory>
    ensures { OnOk result (text.new ≡ text.old ++ pair_text first second) }
{
    text.number(first)?;
    text.bytes(b".")?;
    text.number(second)
}

/// The number of an object and its birth.
pub(crate) fn write_key_pair(text: &mut Text, key: Key) -> Result<(), NoMemory>
    ensures { OnOk result (text.new ≡ text.old ++ pair_text key.object key.birth) }
{
    write_pair(text, u64::from(key.object), key.birth)
}
