//! Writing replies to a writer.

ghost use Rattle.std.specs.Prelude.{◌≡◌, ℕ, ◌-◌, ◌<◌, ◌≤◌, ◌^◌, true, length, take, IfErr, OnOk, OnErr};
ghost use Rattle.std.specs.Io.KnownBytes.{Appends};

use crate::server::ServeFaultKind;
use crate::stream::Sink;

/// Writes all of `bytes` to `writer`, each byte once (`whole`), and flushes (`flushed`). `S.contents` has the bytes written so far, if they
/// are known, and `S.failures` is how many calls of the writer have failed so far. On success none of the calls here has failed:
/// `S.failures` is unchanged (`sound`). At the call it has to be below 2^64 - 1, so that `Counted`, which counts in 64 bits, can count one
/// more.
///
/// # Errors
///
/// `Write`, and no other (`kind`): a write or the flush failed, or a write took no byte although some were left, which counts as failed.
/// `S.failures` is higher than before (`failed`), and what was written until then is a prefix of `bytes` (`part`).
pub fn write_whole<S: Sink>(writer: &mut S, bytes: &[u8]) -> Result<(), ServeFaultKind>
    requires { S.failures writer.old < 2 ^ 64 - 1 }
    ensures whole { OnOk result
        (Appends (S.contents writer.old) (S.contents writer.new) bytes.now) }
    ensures flushed { OnOk result (S.is_flushed writer.new ≡ true) }
    ensures sound { OnOk result (S.failures writer.new ≡ S.failures writer.old) }
    ensures kind { IfErr result (λ kind. kind ≡ ServeFaultKind.Write) }
    ensures part { OnErr result ((n : ℕ) × (n ≤ length bytes.now)
        × Appends (S.contents writer.old) (S.contents writer.new) (take n bytes.now)) }
    ensures failed { OnErr result (S.failures writer.old < S.failures writer.new) }
{
    let mut rest = bytes;
    while !rest.is_empty() {
        match writer.write(rest) {
            Ok(0) => return Err(ServeFaultKind::Write),
            Ok(count) => rest = &rest[count..],
            Err(_) => return Err(ServeFaultKind::Write),
        }
    }
    match writer.flush() {
        Ok(()) => Ok(()),
        Err(_) => Err(ServeFaultKind::Write),
    }
}
