// Writing a record: a level, bit-packed.
ghost use Rattle.fields.specs.Head.{lent_as};
ghost use Rattle.record.specs.Writing.{RecordWritesAs};

use fields::head::Head;
use level::{NEWEST, RECORD_MOST};
use rules::Refusal;

// Writes the record of a level of the version that is told; its length is returned.
pub fn write(f: Head, tiles: &[u8], out: &mut [u8]) -> Result<usize, Refusal>
    ensures { RecordWritesAs (lent_as f tiles.now) out.old out.new result }
{
    if out.len() < RECORD_MOST {
        return Err(Refusal::Buffer);
    }
    lending::check(NEWEST, f, tiles)?;
    Ok(lending::put_record(f, tiles, out))
}
