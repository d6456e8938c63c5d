//! Whole texts to a sink.
ghost use Rattle.std.specs.Prelude.{◌≡◌, ◌≤◌, take, length, OnOk, OnErr};
ghost use Rattle.std.specs.Io.KnownBytes.{Appends};
ghost use Rattle.op_causes.specs.Causes.{HasCause};
ghost use Rattle.op_ports.specs.Sink.{AppendsFront};

use op_ports::{Sink, WriteFault};

/// Writes all bytes. After a fault some of their front may be written.
pub fn write_all<K: Sink>(sink: &mut K, bytes: &[u8]) -> Result<(), WriteFault>
    ensures ok { OnOk result (Appends (K.written sink.old) (K.written sink.new) bytes.now) }
    ensures err { OnErr result (AppendsFront (K.written sink.old) (K.written sink.new) bytes.now) }
    ensures cause { HasCause (K.faults sink.old) (K.faults sink.new) result }
{
    let mut done = 0;
    while done < bytes.len() {
        match sink.put(&bytes[done..]) {
            Ok(count) => {
                done += count;
            }
            Err(fault) => return Err(fault),
        }
    }
    Ok(())
}
