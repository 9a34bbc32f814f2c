//! Writing replies.

ghost use Rattle.std.specs.Prelude.{◌≡◌, ◌+◌, ◌≤◌, ◌++◌, ◌<◌, [], length, pos, vec_capacity, IfOk, IfSome, IfNone};
ghost use Rattle.byteorder.specs.Endian.{little_bytes};
ghost use Rattle.command_frames.specs.Frame.{front_bytes, longest_payload, longest_reply, reply_bytes};

use crate::command::Head;
use std::alloc::{AllocError, Global};
use std::marker::Model;

/// The number of bytes between the length field of a reply and its payload: tenant, command and status.
const REPLY_HEAD: usize = 8;

/// The number of bytes of a reply before its payload: the length field, tenant, command and status.
const FRONT_LENGTH: usize = 4 + REPLY_HEAD;

/// What the length field has in a reply whose payload is a number of four bytes: how many bytes follow this field.
const NUMBER_LENGTH: u32 = REPLY_HEAD as u32 + 4;

/// The length of the longest payload of a reply, in bytes: that of the longest value of a map.
pub const LONGEST_PAYLOAD: usize = 4096;

/// The length of the longest reply, in bytes.
pub const LONGEST_REPLY: usize = FRONT_LENGTH + LONGEST_PAYLOAD;

/// A buffer for one reply. Contracts see the list of its bytes.
#[derive(Drop)]
pub struct ReplyBuf {
    bytes: Vec<u8>,
}

impl Model for ReplyBuf {
    ghost use Rattle.std.specs.Prelude.{List, ℕ, ◌≤◌, length, vec_capacity};
    ghost use Rattle.command_frames.specs.Frame.{longest_reply};

    ghost Value = { List ℕ };

    ghost view = { λ r. r.bytes.items };

    ghost invariant = { λ r. (longest_reply ≤ vec_capacity r.bytes)
        × (length r.bytes.items ≤ longest_reply) };
}

impl ReplyBuf {
    /// Makes an empty buffer, and allocates room for `LONGEST_REPLY` bytes, so that no reply takes memory. `AllocError`: out of memory.
    pub fn new(alloc: Global) -> Result<ReplyBuf, AllocError>
        ensures { IfOk result (λ reply. reply ≡ []) }
    {
        Ok(ReplyBuf {
            bytes: Vec::with_capacity(alloc, LONGEST_REPLY)?,
        })
    }

    /// An empty buffer with the memory of the vector `bytes`, whose contents are dropped. A caller that keeps its reply as a vector
    /// (`into_vec`) thus needs no new memory for the next reply. `None` if the capacity is less than `LONGEST_REPLY`: then the vector is
    /// freed.
    pub fn from_vec(bytes: Vec<u8>) -> Option<ReplyBuf>
        ensures some { IfSome result (λ reply.
            (reply ≡ []) × (longest_reply ≤ vec_capacity bytes)) }
        ensures none { IfNone result (vec_capacity bytes < longest_reply) }
    {
        let mut bytes = bytes;
        if bytes.capacity() < LONGEST_REPLY {
            return None;
        }
        bytes.clear();
        Some(ReplyBuf { bytes })
    }

    /// The vector with the bytes of the reply (`bytes`), at most `LONGEST_REPLY` (`bound`), and a capacity of at least `LONGEST_REPLY`
    /// (`room`). So `from_vec` can make a buffer of its memory again for the next frame, as the library for C does.
    pub fn into_vec(self) -> Vec<u8>
        ensures bytes { result.items ≡ self }
        ensures bound { length result.items ≤ longest_reply }
        ensures room { longest_reply ≤ vec_capacity result }
    {
        let ReplyBuf { bytes } = self;
        bytes
    }

    /// The reply that was written last: its length field, tenant, command, status and payload, at most `LONGEST_REPLY` bytes. Empty before
    /// the first reply.
    pub fn bytes(&self) -> &[u8]
        ensures bytes { result.now ≡ self.now }
        ensures bound { length result.now ≤ longest_reply }
    {
        &self.bytes
    }

    /// Empties the buffer, which keeps its memory.
    fn clear(&mut self)
        ensures { self.new ≡ [] }
    {
        self.bytes.clear();
    }

    /// Appends bytes to the reply. By the precondition the reply then has at most `LONGEST_REPLY` bytes, for which the buffer has the
    /// capacity (`invariant` of `ReplyBuf`). So no memory is needed, and `unwrap` never meets an error.
    fn append(&mut self, bytes: &[u8])
        requires { length self.old + length bytes.now ≤ longest_reply }
        ensures { self.new ≡ self.old ++ bytes.now }
    {
        self.bytes.extend_from_slice(bytes).unwrap();
    }
}

/// The bytes of a reply before its payload: `length`, the tenant, the command and the status, all little-endian. `length` is the number of
/// bytes after the length field.
fn front(head: Head, status: i32, length: u32) -> [u8; FRONT_LENGTH]
    ensures { result ≡ front_bytes head.tenant head.command status length }
{
    let [a, b, c, d] = length.to_le_bytes();
    let [e, f] = head.tenant.to_le_bytes();
    let [g, h] = head.command.to_le_bytes();
    let [i, j, k, l] = status.to_le_bytes();
    [a, b, c, d, e, f, g, h, i, j, k, l]
}

/// Replaces the contents of `reply` by a reply: the length field, which has the number of bytes after it, the tenant and the command number
/// of `head`, the status and the payload. The numbers are little-endian. The status of a tenant's reply is 0, a new descriptor, or a
/// negated error number. The payload has at most `LONGEST_PAYLOAD` bytes, so the buffer has room: no command gives a longer one.
pub fn write_reply(head: Head, status: i32, payload: &[u8], reply: &mut ReplyBuf)
    requires { length payload.now ≤ longest_payload }
    ensures { reply.new ≡ reply_bytes head.tenant head.command status payload.now }
{
    let length = (REPLY_HEAD + payload.len()) as u32;
    reply.clear();
    reply.append(&front(head, status, length));
    reply.append(payload);
}

/// Replaces the contents of `reply` by a reply with the tenant and the command number of `head`. Its status is 0 (`pos 0`, an integer), and
/// its payload is `number`, the result of a test run, in four bytes, little-endian. `front` returns the twelve bytes before the payload:
/// the length field, which is the number of bytes after it (`NUMBER_LENGTH`), tenant, command and status. `write_reply` would write the
/// same with more machine instructions: here the number of all bytes, sixteen, is known in advance.
pub fn write_number(head: Head, number: u32, reply: &mut ReplyBuf)
    ensures { reply.new ≡ reply_bytes head.tenant head.command (pos 0) (little_bytes 4 number) }
{
    let [a, b, c, d, e, f, g, h, i, j, k, l] = front(head, 0, NUMBER_LENGTH);
    let [m, n, o, p] = number.to_le_bytes();
    reply.clear();
    reply.append(&[a, b, c, d, e, f, g, h, i, j, k, l, m, n, o, p]);
}
