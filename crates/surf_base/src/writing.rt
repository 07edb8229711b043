//! Writing all of some bytes.

ghost use Rattle.std.specs.Prelude.{◌≡◌, ◌<◌, ◌≤◌, OnOk, OnErr};
ghost use Rattle.surf_base.specs.Outside.{Rose, appended, GotPrefix};

use crate::outside::{Failed, Sink};

/// Writes all of `bytes`, piece by piece; where the sink fails, a prefix of them was written.
///
/// # Errors
///
/// When the sink fails: its count of faults has then risen.
pub fn write_all<O: Sink>(sink: &mut O, bytes: &[u8]) -> Result<(), Failed>
    ensures faults { O.faults sink.old ≤ O.faults sink.new }
    ensures ok { OnOk result (O.written sink.new ≡ appended (O.written sink.old) bytes.now) }
    ensures rose { OnErr result (Rose (O.faults sink.old) (O.faults sink.new)) }
    ensures prefix { OnErr result (GotPrefix (O.written sink.old) (O.written sink.new) bytes.now) }
{
    let mut done = 0;
    while done < bytes.len() {
        done += sink.write(&bytes[done..])?;
    }
    Ok(())
}
