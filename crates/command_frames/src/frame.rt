//! Reading frames. A frame is what follows the length field.

ghost use Rattle.std.specs.Prelude.{◌≡◌, ◌≤◌, length};
ghost use Rattle.command_frames.specs.Command.{parsed};
ghost use Rattle.command_frames.specs.Frame.{head_length, head_of};
ghost use Rattle.command_frames.specs.Shown.{shown_result};

use crate::body::command_in;
use crate::command::{BadFrame, Command, Head};
use byteorder::{ByteOrder, LittleEndian};

/// The length of a head (a tenant and a command) in bytes.
pub const HEAD_LENGTH: usize = 4;

/// The length of the longest frame that is read, in bytes. The frame of each command within its own limits is shorter: the longest is that
/// of a test run on the longest packet.
pub const LONGEST_FRAME: usize = 131_072;

/// The head of a frame, two little-endian numbers: the tenant in the first two bytes, the number of the command in the next two. The bytes
/// after them are not read. `None` if the frame has fewer than `HEAD_LENGTH` bytes. The host needs the tenant first, before `parse`.
pub fn head(frame: &[u8]) -> Option<Head>
    ensures { result ≡ head_of frame.now }
{
    if frame.len() < HEAD_LENGTH {
        return None;
    }
    Some(Head {
        tenant: LittleEndian::read_u16(frame),
        command: LittleEndian::read_u16(&frame[2..]),
    })
}

/// Parses the command of a frame, which has at least the `HEAD_LENGTH` bytes of a head, two for the tenant and then two for the number of
/// the command: the caller has found one by `head`. Only the numbers are copied; keys, values, slots and packets are borrowed from the
/// frame. In the contract, `shown_result` has them as lists of bytes.
///
/// # Errors
///
/// Why the frame carries no command, the first of these: `TooLong` if it is longer than `LONGEST_FRAME`; `Unknown` if no command has its
/// number; `Body` if the bytes after the head are too few for the command, or, for MAP_CREATE and CLOSE, too many.
pub fn parse(frame: &[u8]) -> Result<Command<'_>, BadFrame>
    requires { head_length ≤ length frame.now }
    ensures { shown_result result ≡ parsed frame.now }
{
    if frame.len() > LONGEST_FRAME {
        return Err(BadFrame::TooLong);
    }
    command_in(LittleEndian::read_u16(&frame[2..]), &frame[HEAD_LENGTH..])
}
