//! Command descriptor blocks (CDBs) of READ (16), WRITE (16) and COMPARE AND WRITE.
ghost use Rattle.std.specs.Prelude.{◌≡◌, ◌≤◌, ◌↔◌, length, Ok, IfOk};
ghost use Rattle.ds_scsi.specs.CommandBlocks.{cdb_at, transfer_at, compare_and_write_at, lba_at, transfer_length_at, is_operation, out_len_of, in_len_of, Asks, IsWithinProfile};
ghost use Rattle.ds_scsi.specs.Forms.{cdb_bytes, command_bytes, form_of};

use ds_base::Command;
use thiserror::Error;

/// What a command descriptor block asks for: READ (16), WRITE (16) or, as `Swap`, COMPARE AND WRITE. `lba` is the
/// first logical block, `count` the TRANSFER LENGTH or the NUMBER OF LOGICAL BLOCKS.
#[derive(Clone, Copy, Debug, PartialEq, Eq)]
pub enum Cdb {
    Read { lba: u64, count: u32 },
    Write { lba: u64, count: u32 },
    Swap { lba: u64, count: u8 },
}

/// Why a list of bytes is no command descriptor block of this project's profile. `byte` is the first byte of the
/// field that is refused.
#[derive(Clone, Copy, Debug, PartialEq, Eq, Error)]
pub enum CdbFault {
    #[error("fewer bytes than the command descriptor block has")]
    ShortCdb,
    #[error("invalid operation code")]
    BadOpcode,
    #[error("invalid field at byte {byte}")]
    BadField { byte: u8 },
}

const READ_16: u8 = 0x88;

const COMPARE_AND_WRITE: u8 = 0x89;

const WRITE_16: u8 = 0x8a;

/// The most logical blocks that one READ or WRITE moves.
const MAX_TRANSFER: u32 = 256;

/// The command descriptor block of a command: of one logical block, with zeros in every bit that the profile ignores.
pub fn cdb_of(command: &Command) -> [u8; 16]
    ensures bytes { result ≡ command_bytes command.now }
    ensures reads { cdb_at result ≡ Ok (form_of command.now) }
{
    match command {
        Command::Read { at } => block_of(READ_16, *at),
        Command::Write { at, .. } => block_of(WRITE_16, *at),
        Command::Swap { at, .. } => block_of(COMPARE_AND_WRITE, *at),
    }
}

/// The block of one logical block at `lba`, with all other bits zero.
#[tactic(auto, unfolding(crate::specs::Forms::cdb_bytes))]
fn block_of(code: u8, lba: u32) -> [u8; 16]
    ensures { result ≡ cdb_bytes code lba }
{
    let [a, b, c, d, e, f, g, h] = u64::from(lba).to_be_bytes();
    [code, 0, a, b, c, d, e, f, g, h, 0, 0, 0, 1, 0, 0]
}

/// The command that these bytes ask for. Bytes past the sixteenth are ignored, and so are all bits outside the
/// operation code, the protection field, the LBA and the number of blocks.
pub fn read_cdb(bytes: &[u8]) -> Result<Cdb, CdbFault>
    ensures exact { result ≡ cdb_at bytes.now }
    ensures asked { (form : Cdb) → (result ≡ Ok form) ↔ Asks bytes.now form }
    ensures limits { IfOk result IsWithinProfile }
{
    look_at(bytes)
}

#[tactic(auto, unfolding(crate::specs::CommandBlocks::cdb_at))]
fn look_at(bytes: &[u8]) -> Result<Cdb, CdbFault>
    ensures exact { result ≡ cdb_at bytes.now }
    ensures limits { IfOk result IsWithinProfile }
{
    if bytes.is_empty() {
        return Err(CdbFault::ShortCdb);
    }
    let code = bytes[0];
    if !is_operation(code) {
        return Err(CdbFault::BadOpcode);
    }
    if bytes.len() < 16 {
        return Err(CdbFault::ShortCdb);
    }
    if bytes[1] >= 0x20 {
        return Err(CdbFault::BadField { byte: 1 });
    }
    if code == COMPARE_AND_WRITE {
        return read_swap(bytes);
    }
    read_transfer(bytes)
}

fn is_operation(code: u8) -> bool
    ensures { result ≡ is_operation code }
{
    code == READ_16 || code == WRITE_16 || code == COMPARE_AND_WRITE
}

/// What a READ or a WRITE asks for.
fn read_transfer(bytes: &[u8]) -> Result<Cdb, CdbFault>
    requires { 16 ≤ length bytes.now }
    ensures exact { result ≡ transfer_at bytes.now }
    ensures limits { IfOk result IsWithinProfile }
{
    let count = transfer_length_in(bytes);
    if count > MAX_TRANSFER {
        return Err(CdbFault::BadField { byte: 10 });
    }
    let lba = lba_in(bytes);
    if bytes[0] == READ_16 {
        return Ok(Cdb::Read { lba, count });
    }
    Ok(Cdb::Write { lba, count })
}

/// What a COMPARE AND WRITE asks for.
fn read_swap(bytes: &[u8]) -> Result<Cdb, CdbFault>
    requires { 16 ≤ length bytes.now }
    ensures exact { result ≡ compare_and_write_at bytes.now }
    ensures limits { IfOk result IsWithinProfile }
{
    let count = bytes[13];
    if count > 1 {
        return Err(CdbFault::BadField { byte: 13 });
    }
    Ok(Cdb::Swap {
        lba: lba_in(bytes),
        count,
    })
}

fn lba_in(bytes: &[u8]) -> u64
    requires { 10 ≤ length bytes.now }
    ensures { result ≡ lba_at bytes.now }
{
    let mut field = [0; 8];
    field.copy_from_slice(&bytes[2..10]);
    u64::from_be_bytes(field)
}

fn transfer_length_in(bytes: &[u8]) -> u32
    requires { 14 ≤ length bytes.now }
    ensures { result ≡ transfer_length_at bytes.now }
{
    let mut field = [0; 4];
    field.copy_from_slice(&bytes[10..14]);
    u32::from_be_bytes(field)
}

/// How many bytes the Data-Out buffer of the command has.
pub fn out_len(cdb: &Cdb) -> usize
    ensures { result ≡ out_len_of cdb.now }
{
    match cdb {
        Cdb::Read { .. } => 0,
        Cdb::Write { count, .. } => 512 * *count as usize,
        Cdb::Swap { count, .. } => 1024 * *count as usize,
    }
}

/// How many bytes the Data-In buffer of the command has.
pub fn in_len(cdb: &Cdb) -> usize
    ensures { result ≡ in_len_of cdb.now }
{
    match cdb {
        Cdb::Read { count, .. } => 512 * *count as usize,
        Cdb::Write { .. } | Cdb::Swap { .. } => 0,
    }
}
