//! The replies to commands.

ghost use Rattle.tenant.specs.Replies.{IsWritable, Writes, shown_reply};
ghost use Rattle.tenant.specs.State.{TenantState};

use crate::errno::Errno;
use bpf_maps::KeyRef;
use command_frames::{Head, ReplyBuf, write_number, write_reply};
use verifier::Refusal;

/// The reply to a command that succeeds, or to a load that is rejected because of a slot. Any other error is an `Errno`.
#[derive(Drop)]
pub enum Reply<'a> {
    /// Status 0 without a payload.
    Done,
    /// The status is a new descriptor; there is no payload.
    Opened(u32),
    /// Status 0; the payload is a value, borrowed from the tenant's part.
    Value(&'a [u8]),
    /// Status 0; the payload is a key.
    Key(KeyRef<'a>),
    /// Status 0; the payload is the result of a test run, in four bytes.
    Number(u32),
    /// The status is the error of the cause for which a load is rejected. The payload is the slot, in four bytes, and the number of the
    /// cause, in two.
    Refused(Refusal),
}

/// Writes the reply to a command to `reply`. The reply has the tenant and the command number of `head`, the head of the command's frame.
/// `answer` is what the command returned: a `Reply`, which gives the status and the payload, or an error, which is the status of a reply
/// without payload. Each command promises that its result can be written (`IsWritable`), so no cast loses anything. In the contract
/// `shown_reply` makes an `Answer` of the machine from this result and a state `s`, the tenant's state after the command. No byte of a
/// reply depends on that state, so `s` may be any state.
#[inline(always)]
pub fn write_command_reply(head: Head, answer: Result<Reply<'_>, Errno>, reply: &mut ReplyBuf)
    requires { IsWritable answer }
    ensures { (s : TenantState) → Writes head reply.new (shown_reply answer.entry s) }
{
    match answer {
        Ok(Reply::Done) => write_reply(head, 0, &[], reply),
        Ok(Reply::Opened(fd)) => write_reply(head, fd as i32, &[], reply),
        Ok(Reply::Value(value)) => write_reply(head, 0, value, reply),
        Ok(Reply::Key(key)) => write_reply(head, 0, key.bytes(), reply),
        Ok(Reply::Number(number)) => write_number(head, number, reply),
        Ok(Reply::Refused(Refusal { slot, cause })) => {
            let [a, b, c, d] = (slot as u32).to_le_bytes();
            let [e, f] = cause.number().to_le_bytes();
            let errno = Errno::of_cause(cause);
            write_reply(head, errno.status(), &[a, b, c, d, e, f], reply);
        }
        Err(errno) => write_reply(head, errno.status(), &[], reply),
    }
}
