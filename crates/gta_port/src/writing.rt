//! Writing bytes whole, or up to the first failed write.
ghost use Rattle.std.specs.Prelude.{◌≡◌, ◌≤◌, length, take, OnOk, OnErr, IfErr};
ghost use Rattle.std.specs.Io.KnownBytes.{Appends};
ghost use Rattle.gta_port.specs.Port.{GainsFront, Rose};
ghost use Rattle.gta_port.specs.WriteGone.{gone_before};

use crate::ports::{Failed, Sink};

/// Why the bytes did not all go out.
#[derive(Clone, Copy, Debug, PartialEq, Eq)]
pub enum WriteEnd {
    /// A write failed, after the first `gone` bytes.
    WriteFault { gone: usize },
}

/// Writes all the bytes in order. At a fault the first `gone` of them went out and no others.
/// Takes no memory.
pub fn write_all_of<K: Sink>(sink: &mut K, bytes: &[u8]) -> Result<(), WriteEnd>
    ensures ok { OnOk result (Appends (K.gone sink.old) (K.gone sink.new) bytes.now) }
    ensures write_fault { IfErr result
        (λ e. Appends (K.gone sink.old) (K.gone sink.new) (take (gone_before e) bytes.now)) }
    ensures within { IfErr result (λ e. gone_before e ≤ length bytes.now) }
    ensures front { GainsFront (K.gone sink.old) (K.gone sink.new) bytes.now }
    ensures failed { OnErr result (Rose (K.faults sink.old) (K.faults sink.new)) }
    ensures steady { OnOk result (K.faults sink.new ≡ K.faults sink.old) }
    ensures counts { K.faults sink.old ≤ K.faults sink.new }
{
    let mut gone = 0;
    while gone < bytes.len() {
        match sink.write(&bytes[gone..]) {
            Ok(n) => gone += n,
            Err(Failed) => return Err(WriteEnd::WriteFault { gone }),
        }
    }
    Ok(())
}
