//! The frames of one tenant, and the replies to them.

ghost use Rattle.std.specs.Prelude.{◌≡◌, ◌≢◌, ◌≤◌, ℕ, [], Some};
ghost use Rattle.arena.specs.Memory.{part_bytes};
ghost use Rattle.bpf_helpers.specs.Parts.{IsPartOf};
ghost use Rattle.command_frames.specs.Command.{longest_frame, tail_length};
ghost use Rattle.command_frames.specs.Frame.{head_of, reply_to};
ghost use Rattle.command_frames.specs.Shown.{shown_command};
ghost use Rattle.tenant.specs.Alone.{MayReply, frame_errno};
ghost use Rattle.tenant.specs.Errno.{status_of};
ghost use Rattle.tenant.specs.Kept.{state_in};
ghost use Rattle.saving.specs.Recorded.{IsRecorded, RecordsFrame, tenant_state};
ghost use Rattle.tenant.specs.declared.errno.Errno.TheVariants.{BadAddress};
ghost use Rattle.saving.specs.inside.Frames.{RepliesToCommand, ChangesPart};

use crate::birth::Births;
use crate::laws::{births_are_kept, maps_are_held};
use crate::savable::SavableTenant;
use arena::{Arena, laws};
use command_frames::{BadFrame, Command, Head, ReplyBuf, parse};
use tenant::{Errno, Tenant, WorkingMemory, write_command_reply};

/// The error in the reply to a frame that carries no command: E2BIG (`TooBig`) if the frame is longer than `LONGEST_FRAME`, EINVAL
/// (`Invalid`) if no command has its number, or if its body is shorter or longer than its command allows. By `no_fault` it is never EFAULT
/// (`BadAddress`), the error of a run that faults; so `SavableTenant::handle` can promise that of all replies.
fn frame_error(fault: BadFrame) -> Errno
    ensures errno { result ≡ frame_errno fault }
    ensures no_fault { result ≢ BadAddress }
{
    match fault {
        BadFrame::TooLong => Errno::TooBig,
        BadFrame::Unknown => Errno::Invalid,
        BadFrame::Body => Errno::Invalid,
    }
}

/// The command of a frame, with the head of the frame.
struct HeadedCommand<'a> {
    head: Head,
    command: Command<'a>,
}

/// Executes the command of a frame on the tenant, and writes the reply to `reply`. By `replied` the reply and the next state are those of
/// the tenant's machine, and the reply is never the error of a run that faults; by `changes` only the tenant's part of the arena changes,
/// that of the number `number`, which exists (`part`). `births` is the record for saves: at which descriptor each live map was created, and
/// each open program loaded. By `recorded` it is right before the call, and exactly the maps that open objects name are live. MAP_CREATE
/// and PROG_LOAD add the object that they open, CLOSE removes the objects that are no longer live, and other commands do not change the
/// record (`replied`). `working` is memory for the verification of a load; its contents mean nothing. The key, the value, the slots or the
/// packet in the command have at most `LONGEST_FRAME` bytes (`short`), since the command is that of a parsed frame.
fn reply_to_command(
    tenant: &mut Tenant,
    births: &mut Births,
    headed: HeadedCommand<'_>,
    number: usize,
    arena: &mut Arena,
    working: &mut WorkingMemory,
    reply: &mut ReplyBuf,
)
    requires short { tail_length (shown_command headed.command) ≤ longest_frame }
    requires part { IsPartOf number arena.old }
    requires recorded { IsRecorded (record { kept = tenant.old; births = births.old }) }
    ensures replied { RepliesToCommand (shown_command headed.entry.command) headed.entry.head
        reply.new
        (state_in (part_bytes arena.old number) tenant.old)
        (state_in (part_bytes arena.new number) tenant.new) births.old births.new }
    ensures changes { ChangesPart number arena.old arena.new }
{
    // For the proof: laws, which do nothing.
    arena.memory_is_its_parts();
    laws::parts_are_apart();
    maps_are_held();
    births_are_kept();
    let HeadedCommand { head, command } = headed;
    match command {
        Command::MapCreate {
            kind,
            key_size,
            value_size,
            max_entries,
            flags,
        } => {
            let part = arena.part_mut(number);
            let answer = tenant.create(kind, key_size, value_size, max_entries, flags, part);
            births.note(tenant, &answer);
            write_command_reply(head, answer, reply);
        }
        Command::MapLookup { fd, key } => {
            let answer = tenant.look_up(fd, key, arena.part(number));
            write_command_reply(head, answer, reply);
        }
        Command::MapUpdate {
            fd,
            flags,
            key_and_value,
        } => {
            let answer = tenant.update(fd, flags, key_and_value, arena.part_mut(number));
            write_command_reply(head, answer, reply);
        }
        Command::MapDelete { fd, key } => {
            let answer = tenant.delete(fd, key);
            write_command_reply(head, answer, reply);
        }
        Command::MapNextKey { fd, key } => {
            let answer = tenant.next_key(fd, key);
            write_command_reply(head, answer, reply);
        }
        Command::ProgLoad { kind, slots } => {
            let loaded = tenant.load(kind, slots, working);
            births.note(tenant, &loaded);
            write_command_reply(head, loaded, reply);
        }
        Command::ProgTestRun { fd, words, packet } => {
            let answer = tenant.test_run(fd, &words, packet, number, arena);
            write_command_reply(head, answer, reply);
        }
        Command::Close { fd } => {
            let answer = tenant.close(fd, arena.part_mut(number));
            births.keep_living(tenant);
            write_command_reply(head, answer, reply);
        }
    }
}

impl SavableTenant {
    /// Executes the command of a frame of this tenant, and writes the reply to `reply`. By `replied` the reply and the next state are those
    /// of the tenant's machine if memory is refused to the command, or those if it is not. The states are in `Some`, since a tenant that is
    /// not served has none. A frame without a command (`BadFrame`: too long, of an unknown number, or with a body of a wrong length) gets
    /// an error and changes nothing. `frame` is what follows the length field, and `head` its tenant and command number, which the host has
    /// read. `tenant` is the number of the tenant's part in the arena. A load is verified in `working`, the memory for the loads of all
    /// tenants, whose contents mean nothing. By `recorded`, MAP_CREATE and PROG_LOAD add a birth if they succeed, CLOSE removes the births
    /// of objects that are no longer live, and any other command changes none. No reply is the error of a run that faults, EFAULT
    /// (`no_fault`). The number and the size of the arena's parts (`parts`, `part`) and the bytes of all other parts (`others`) are
    /// unchanged.
    pub fn handle(
        &mut self,
        head: Head,
        frame: &[u8],
        tenant: usize,
        arena: &mut Arena,
        working: &mut WorkingMemory,
        reply: &mut ReplyBuf,
    )
        requires head { head_of frame.now ≡ Some head }
        requires part { IsPartOf tenant arena.old }
        ensures replied { MayReply frame.now reply.new
            (Some (tenant_state (part_bytes arena.old tenant) self.old))
            (Some (tenant_state (part_bytes arena.new tenant) self.new)) }
        ensures recorded { RecordsFrame frame.now reply.new
            (tenant_state (part_bytes arena.old tenant) self.old)
            (tenant_state (part_bytes arena.new tenant) self.new)
            self.old.births self.new.births }
        ensures no_fault { reply.new ≢ reply_to frame.now (status_of BadAddress) [] }
        ensures parts { arena.new.parts ≡ arena.old.parts }
        ensures part { arena.new.part ≡ arena.old.part }
        ensures others { (other : ℕ) → other ≢ tenant
            → part_bytes arena.new other ≡ part_bytes arena.old other }
    {
        // For the proof: laws, which do nothing.
        maps_are_held();
        births_are_kept();
        match parse(frame) {
            Ok(command) => {
                let (kept, births) = (&mut self.tenant, &mut self.births);
                let headed = HeadedCommand { head, command };
                reply_to_command(kept, births, headed, tenant, arena, working, reply);
            }
            Err(fault) => write_command_reply(head, Err(frame_error(fault)), reply),
        }
    }
}
