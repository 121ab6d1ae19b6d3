//! Host ids.
ghost use Rattle.std.specs.Prelude.{◌≡◌, ◌++◌, take};
ghost use Rattle.ds_base.specs.Identity.{host_id_of};

use uuid::Uuid;

/// The id of a host on a volume: the version 5 id (RFC 9562) of its name in the namespace of the volume's id.
pub fn host_id(volume: Uuid, name: &[u8]) -> Uuid
    ensures { result ≡ host_id_of volume name.now }
{
    Uuid::new_v5(&volume, name)
}
