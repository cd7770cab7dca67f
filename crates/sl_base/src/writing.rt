//! Writing all bytes to a sink.
ghost use Rattle.std.specs.Prelude.{◌≡◌, ◌<◌, ◌≤◌, length, take, OnOk, OnErr, IfErr};
ghost use Rattle.std.specs.Io.KnownBytes.{append_known};
ghost use Rattle.sl_base.specs.Faults.{HasRisen};

use crate::sink::Sink;

/// Not all bytes were taken.
#[derive(Clone, Copy, Debug, PartialEq, Eq, Drop)]
pub struct WriteErr {
    /// How many bytes, from the first, were taken.
    pub sent: u64,
}

/// Writes `bytes` in as many pieces as the sink makes of them. It takes no memory.
pub fn write_all<S: Sink>(sink: &mut S, bytes: &[u8]) -> Result<(), WriteErr>
    ensures never_falls { S.faults sink.old ≤ S.faults sink.new }
    ensures ok_taken { OnOk result (S.taken sink.new ≡ append_known (S.taken sink.old) bytes.now) }
    ensures ok_faults { OnOk result (S.faults sink.new ≡ S.faults sink.old) }
    ensures err_risen { OnErr result (HasRisen (S.faults sink.old) (S.faults sink.new)) }
    ensures err_sent { IfErr result (λ e. e.sent < length bytes.now) }
    ensures err_taken { IfErr result
        (λ e. S.taken sink.new ≡ append_known (S.taken sink.old) (take e.sent bytes.now)) }
{
    let mut sent = 0;
    while sent < bytes.len() {
        let Ok(count) = sink.write(&bytes[sent..]) else {
            return Err(WriteErr { sent: sent as u64 });
        };
        sent += count;
    }
    Ok(())
}
