//! Laws of frames, commands and replies. Each is the contract of a function that does nothing.

ghost use Rattle.command_frames.specs.Laws.{EachIsStream, OneStream, FramesInFront, EncodingInvertsParsing};
ghost use Rattle.command_frames.specs.Laws.{FramesHaveOwners, OneReplyInFront};

/// A law: any bytes can be split into frames, each after its length in four bytes, and a rest that does not begin with a whole frame. By
/// `one_stream` there is only one such split, so any input is exactly one list of frames and a rest.
pub fn each_is_stream()
    ensures { EachIsStream }
{}

/// A law: bytes are a stream in one way at most. They determine the frames, each after its length, and the rest after the last frame, which
/// does not begin with a whole frame. The law `each_is_stream` has the other half, that bytes are a stream in at least one way.
pub fn one_stream()
    ensures { OneStream }
{}

/// A law: if the bytes of a stream begin with some whole frames, each after its length, these are the first frames of the stream. The bytes
/// after them are a stream of its other frames, and the two streams have one rest: the bytes after the last frame, which do not begin with
/// a whole frame. The law `no_content_ends_a_stream` of `host_core` needs this: from the frames that `serve` has read it follows which
/// frames of the stream are left.
pub fn frames_in_front()
    ensures { FramesInFront }
{}

/// A law, in two directions. The frame of a command to any tenant is parsed as this command, if the command's numbers fit into their fields
/// and the frame has at most `LONGEST_FRAME` bytes. Conversely, if a frame with a head is parsed as a command, the bytes of the frame are
/// those of this command to the frame's owner, the tenant in its first two bytes, and the command's numbers fit. By the first direction
/// `saving` proves that the frames that restore a tenant, the frame that would load an installed program, and the frame of each test run
/// that fits into one are parsed as their commands. No proof uses the second direction: by it, two frames of one tenant that are parsed as
/// one command are equal.
pub fn encoding_inverts_parsing()
    ensures { EncodingInvertsParsing }
{}

/// A law: if the number of a tenant is below 2^16, the owner of each frame of a command to this tenant is this number. The owner of a frame
/// is the number in the frame's first two bytes, and 65535 if the frame is too short for a head. By this law `host_core` proves that the
/// frames of a save of a tenant, and the frame that would load an installed program, go to this tenant.
pub fn frames_have_owners()
    ensures { FramesHaveOwners }
{}

/// A law: bytes begin with one reply at most. They determine its tenant, command, status and payload, and the bytes after it. So a client
/// can read a stream of replies in only one way.
pub fn one_reply_in_front()
    ensures { OneReplyInFront }
{}
