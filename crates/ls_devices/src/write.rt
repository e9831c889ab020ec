//! Writing.
ghost use Rattle.std.specs.Prelude.{◌≡◌, ◌||◌, IfErr, OnOk, false};
ghost use Rattle.std.specs.Io.KnownBytes.{Appends};
ghost use Rattle.ls_devices.specs.Devices.{AppendsPrefix, is_failed};

use crate::device::{DeviceFault, Sink};

/// Writes all the bytes, by as many writes as that takes.
///
/// # Errors
///
/// `Failed` where the sink failed. A prefix of the bytes has been written then.
pub fn write_all<W: Sink>(writer: &mut W, bytes: &[u8]) -> Result<(), DeviceFault>
    ensures ok { OnOk result (Appends (W.contents writer.old) (W.contents writer.new) bytes.now) }
    ensures prefix { AppendsPrefix (W.contents writer.old) (W.contents writer.new) bytes.now }
    ensures failed { W.failed writer.new ≡ (W.failed writer.old || is_failed result) }
    ensures fault { IfErr result (λ e. e ≡ DeviceFault.Failed) }
{
    let mut at = 0;
    'writes: while at < bytes.len() {
        at += writer.write(&bytes[at..])?;
    }
    Ok(())
}

/// Writes all the bytes, and has the sink hand them on.
///
/// # Errors
///
/// `Failed` where the sink failed. A prefix of the bytes has been written then.
pub fn write_and_flush<W: Sink>(writer: &mut W, bytes: &[u8]) -> Result<(), DeviceFault>
    ensures ok { OnOk result (Appends (W.contents writer.old) (W.contents writer.new) bytes.now) }
    ensures prefix { AppendsPrefix (W.contents writer.old) (W.contents writer.new) bytes.now }
    ensures failed { W.failed writer.new ≡ (W.failed writer.old || is_failed result) }
    ensures flushed { OnOk result (W.unflushed writer.new ≡ false) }
    ensures fault { IfErr result (λ e. e ≡ DeviceFault.Failed) }
{
    if write_all(writer, bytes).is_err() {
        return Err(DeviceFault::Failed);
    }
    if writer.flush().is_err() {
        return Err(DeviceFault::Failed);
    }
    Ok(())
}
