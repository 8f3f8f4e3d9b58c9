//! Bytes to a channel, and how many went out.

ghost use Rattle.std.specs.Prelude.{◌≡◌, ◌+◌, ◌<◌, length, take, OnOk, IfOk, IfErr};
ghost use Rattle.dap_channel.specs.Sent.{Flushes, Writes, WritesShort, SendsFront, Sends, saturating_count};

use crate::channel::Channel;

/// Writes all bytes, or answers how many went out.
fn write_counted<C: Channel>(channel: &mut C, bytes: &[u8]) -> Result<(), usize>
    ensures ok { OnOk result (Writes C.goes channel.old channel.new bytes.now) }
    ensures err { IfErr result (λ n. (n < length bytes.now) × WritesShort C.goes channel.old channel.new (take n bytes.now)) }
{
    let mut at = 0;
    while at < bytes.len() {
        let (_, rest) = bytes.split_at(at);
        match channel.write(rest) {
            Ok(0) => return Err(at),
            Ok(n) => at += n,
            Err(_) => return Err(at),
        }
    }
    Ok(())
}

/// Writes and flushes bytes after `written` others. It answers how many went out in all, also where the writer failed or
/// took nothing; more than 18446744073709551615 are told as that.
///
/// # Errors
/// How many bytes went out in all, where a write or the flush failed, or a write took nothing.
pub fn send<C: Channel>(channel: &mut C, bytes: &[u8], written: u64) -> Result<u64, u64>
    ensures sent { OnOk result (Sends C.goes channel.old channel.new bytes.now) }
    ensures last { OnOk result (Flushes C.goes channel.old channel.new bytes.now) }
    ensures count { IfOk result (λ n. n ≡ saturating_count (written + length bytes.now)) }

    // What went out is a front of the bytes.
    ensures short { IfErr result (SendsFront C.goes channel.old channel.new bytes.now written) }
{
    if let Err(n) = write_counted(channel, bytes) {
        return Err(written.saturating_add(n as u64));
    }
    let total = written.saturating_add(bytes.len() as u64);
    match channel.flush() {
        Ok(()) => Ok(total),
        Err(_) => Err(total),
    }
}
