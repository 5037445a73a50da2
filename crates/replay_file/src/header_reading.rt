ghost use Rattle.std.specs.Prelude.{◌≡◌, ◌++◌, true, IfOk};
ghost use Rattle.wire_bytes.specs.Field.{field_bytes};
ghost use Rattle.wire_bytes.specs.Read.{number_at, Reads};
ghost use Rattle.replay_file.specs.declared.replay_fault.ReplayFault.TheVariants.{Torn};
ghost use Rattle.replay_file.specs.declared.limits.TheConstants.{MAGIC, RULES_AT};
ghost use Rattle.replay_file.specs.FirstFault.{header_at, is_client_count, version_at};
ghost use Rattle.replay_file.specs.HeaderClauses.{IsHeader};
ghost use Rattle.replay_file.specs.PartRules.{is_known, most_clients};

use crate::header::Header;
use crate::limits::{
    CLIENTS_AT, FIRST_MAX_CLIENTS, FIRST_VERSION, MAGIC, RULES_AT, VERSION, VERSION_AT,
};
use crate::replay_fault::ReplayFault;
use game_orders::MAX_CLIENTS;
use wire_bytes::Cursor;

/// True where the version is known.
fn is_known(version: u16) -> bool
    ensures { result ≡ is_known version }
{
    version == FIRST_VERSION || version == VERSION
}

/// The greatest number of clients in a version.
fn most_clients(version: u16) -> u8
    ensures { result ≡ most_clients version }
{
    if version == FIRST_VERSION {
        FIRST_MAX_CLIENTS
    } else {
        MAX_CLIENTS
    }
}

/// True where a version may have so many clients.
fn is_client_count(version: u16, clients: u8) -> bool
    ensures { result ≡ is_client_count version clients }
{
    1 <= clients && clients <= most_clients(version)
}

/// Reads the first four bytes and the version.
#[tactic(auto, unfolding(crate::specs::FirstFault::version_at))]
fn read_version(c: &mut Cursor<'_>) -> Result<u16, ReplayFault>
    ensures reads { Reads version_at c.old c.new result }
    ensures spelled { IfOk result (λ version. c.old ≡ field_bytes 4 MAGIC
        ++ (field_bytes 2 version ++ c.new)) }
    ensures known { IfOk result (λ version. is_known version ≡ true) }
{
    let Ok(start) = c.read_u32() else {
        return Err(ReplayFault::BadMagic);
    };
    if start != MAGIC {
        return Err(ReplayFault::BadMagic);
    }
    let Ok(version) = c.read_u16() else {
        return Err(ReplayFault::Torn { at: VERSION_AT });
    };
    if !is_known(version) {
        return Err(ReplayFault::BadVersion);
    }
    Ok(version)
}

/// Reads a field of eight bytes of the header after the version.
fn read_eight(c: &mut Cursor<'_>) -> Result<u64, ReplayFault>
    ensures reads { Reads (number_at (Torn RULES_AT) 8) c.old c.new result }
    ensures spelled { IfOk result (λ number. c.old ≡ field_bytes 8 number ++ c.new) }
{
    match c.read_u64() {
        Ok(number) => Ok(number),
        Err(_) => Err(ReplayFault::Torn { at: RULES_AT }),
    }
}

/// Reads a field of four bytes of the header after the version.
fn read_four(c: &mut Cursor<'_>) -> Result<u32, ReplayFault>
    ensures reads { Reads (number_at (Torn RULES_AT) 4) c.old c.new result }
    ensures spelled { IfOk result (λ number. c.old ≡ field_bytes 4 number ++ c.new) }
{
    match c.read_u32() {
        Ok(number) => Ok(number),
        Err(_) => Err(ReplayFault::Torn { at: RULES_AT }),
    }
}

/// Reads a field of one byte of the header after the version.
fn read_one(c: &mut Cursor<'_>) -> Result<u8, ReplayFault>
    ensures reads { Reads (number_at (Torn RULES_AT) 1) c.old c.new result }
    ensures spelled { IfOk result (λ number. c.old ≡ field_bytes 1 number ++ c.new) }
{
    match c.read_u8() {
        Ok(number) => Ok(number),
        Err(_) => Err(ReplayFault::Torn { at: RULES_AT }),
    }
}

/// Reads the header, whose rules number is to be the given one.
#[tactic(auto, unfolding(crate::specs::FirstFault::header_at, crate::specs::ReplayBytes::header_bytes))]
pub(crate) fn read_header(c: &mut Cursor<'_>, here: u64) -> Result<Header, ReplayFault>
    ensures reads { Reads (header_at here) c.old c.new result }
    ensures header { IfOk result (IsHeader here c.old c.new) }
{
    let version = read_version(c)?;
    let rules = read_eight(c)?;
    let seed = read_four(c)?;
    let clients = read_one(c)?;
    if rules != here {
        return Err(ReplayFault::OtherRules { file: rules, here });
    }
    if !is_client_count(version, clients) {
        return Err(ReplayFault::BadRecord { at: CLIENTS_AT });
    }
    Ok(Header {
        version,
        rules,
        seed,
        clients,
    })
}
