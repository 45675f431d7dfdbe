ghost use Rattle.std.specs.Prelude.{◌≡◌, ◌++◌, OnOk, OnErr};
ghost use Rattle.fixed_fields.specs.Fields.{int32_at, int64_at, uuid_at, int32_bytes, int64_bytes, uuid_bytes, ReadsBack};

use crate::fields::UUID_LENGTH;
use grid_base::Memory;

/// Appends a number in four bytes. Want of memory appends nothing.
pub fn write_int32(value: i32, out: &mut Vec<u8>) -> Result<(), Memory>
    ensures ok { OnOk result (out.new.items ≡ out.old.items ++ int32_bytes value) }
    ensures read { OnOk result (ReadsBack int32_at out.old.items out.new.items value) }
    ensures err { OnErr result (out.new.items ≡ out.old.items) }
{
    out.extend_from_slice(&value.to_le_bytes())?;
    Ok(())
}

/// Appends a number in eight bytes. Want of memory appends nothing.
pub fn write_int64(value: i64, out: &mut Vec<u8>) -> Result<(), Memory>
    ensures ok { OnOk result (out.new.items ≡ out.old.items ++ int64_bytes value) }
    ensures read { OnOk result (ReadsBack int64_at out.old.items out.new.items value) }
    ensures err { OnErr result (out.new.items ≡ out.old.items) }
{
    out.extend_from_slice(&value.to_le_bytes())?;
    Ok(())
}

/// Appends a UUID, or that there is none, in 17 bytes. Want of memory appends nothing.
pub fn write_uuid(uuid: Option<u128>, out: &mut Vec<u8>) -> Result<(), Memory>
    ensures ok { OnOk result (out.new.items ≡ out.old.items ++ uuid_bytes uuid) }
    ensures read { OnOk result (ReadsBack uuid_at out.old.items out.new.items uuid) }
    ensures err { OnErr result (out.new.items ≡ out.old.items) }
{
    out.reserve(UUID_LENGTH)?;
    match uuid {
        Some(uuid) => {
            let high = (uuid / (1 << 64)) as u64;
            let low = (uuid % (1 << 64)) as u64;
            out.push(0).unwrap();
            out.extend_from_slice(&high.to_le_bytes()).unwrap();
            out.extend_from_slice(&low.to_le_bytes()).unwrap();
        }
        None => {
            out.push(1).unwrap();
            out.extend_from_slice(&[0; 16]).unwrap();
        }
    }
    Ok(())
}
