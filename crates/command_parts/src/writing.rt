//! Bytes that are written.

ghost use Rattle.std.specs.Prelude.{◌≡◌, IfErr, OnOk};
ghost use Rattle.std.specs.Io.KnownBytes.{Appends};
ghost use Rattle.outer_io.specs.Faults.{HasCause};
ghost use Rattle.outer_io.specs.Front.{AppendsFront};
ghost use Rattle.command_parts.specs.Writing.{IsWriteFault};

use crate::status::Status;
use outer_io::{Sink, SinkErr, give_all};

/// Writes some bytes, or gives the status with which the run ends then: `WriteFault` or `NoMemory`.
pub fn write_bytes<K: Sink>(bytes: &[u8], out: &mut K) -> Result<(), Status>
    ensures whole { OnOk result (Appends (K.held out.old) (K.held out.new) bytes.now) }
    ensures front { AppendsFront (K.held out.old) (K.held out.new) bytes.now }
    ensures error { IfErr result IsWriteFault }
    ensures cause { HasCause Status.WriteFault (K.faults out.old) (K.faults out.new) result }
{
    match give_all(out, bytes) {
        Ok(()) => Ok(()),
        Err(SinkErr::Failed) => Err(Status::WriteFault),
        Err(SinkErr::NoMemory) => Err(Status::NoMemory),
    }
}
