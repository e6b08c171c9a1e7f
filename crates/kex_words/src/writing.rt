// Writes in full.
ghost use Rattle.std.specs.Prelude.{◌≡◌, [], IsOk, OnErr, OnOk};
ghost use Rattle.std.specs.Io.KnownBytes.{Appends};
ghost use Rattle.kex_ports.specs.Bytes.{AppendsFront};
ghost use Rattle.kex_ports.specs.Causes.{HasCause};
ghost use Rattle.kex_ports.specs.Endings.{IsUnfinished};

use kex_ports::{Failed, Sink};

/// Writes all bytes, or a front of them where the sink fails. With none the sink isn't called.
pub fn write_all<K: Sink>(sink: &mut K, bytes: &[u8]) -> Result<(), Failed>
    ensures written { OnOk result (Appends (K.held sink.old) (K.held sink.new) bytes.now) }
    ensures failed { OnErr result (AppendsFront (K.held sink.old) (K.held sink.new) bytes.now) }
    ensures cause { HasCause (K.faults sink.old) (K.faults sink.new) result }
    ensures unfinished { IsUnfinished (K.ending sink.old) (K.ending sink.new) result }
    ensures left { bytes.now ≡ [] → IsOk result × (sink.new ≡ sink.old) }
{
    let mut rest = bytes;
    while !rest.is_empty() {
        let count = sink.write(rest)?;
        rest = &rest[count..];
    }
    Ok(())
}
