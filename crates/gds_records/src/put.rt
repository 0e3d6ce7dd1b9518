//! A record is put behind bytes. (GDSII Release 6.)
ghost use Rattle.std.specs.Prelude.{◌≡◌, ◌%◌, ◌≤◌, ◌++◌, length, OnOk, OnErr};
ghost use Rattle.gds_records.specs.Records.{spelled_as};

use rt_base::OutOfMemory;

/// Appends a record: two bytes of length, big-endian, which count the four bytes before the body, the type,
/// the data type and the body. A refusal leaves the bytes as they were. (GDSII Release 6.)
#[tactic(auto, unfolding(crate::specs::Records::spelled_as))]
pub fn put_record(to: &mut Vec<u8>, code: u8, form: u8, body: &[u8]) -> Result<(), OutOfMemory>
    requires even { length body.now % 2 ≡ 0 }
    requires short { length body.now ≤ 65530 }
    ensures ok { OnOk result (to.new.items ≡ to.old.items ++ spelled_as code form body.now) }
    ensures err { OnErr result (to.new.items ≡ to.old.items) }
{
    to.reserve(body.len() + 4)?;
    let length = (body.len() as u16 + 4).to_be_bytes();
    to.extend_from_slice(&[length[0], length[1], code, form])?;
    to.extend_from_slice(body)?;
    Ok(())
}
