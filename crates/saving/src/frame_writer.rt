//! The frames of a part of a save.

ghost use Rattle.std.specs.Prelude.{◌≡◌, ◌++◌, ℕ, List, [], length, take, drop, OnOk};
ghost use Rattle.bpf_maps.specs.declared.part.TheConstants.{PART};
ghost use Rattle.command_frames.specs.Command.{close, prog_load};
ghost use Rattle.command_frames.specs.Frame.{framed};
ghost use Rattle.fd_table.specs.Table.{first_descriptor, most, named};
ghost use Rattle.tenant.specs.Entry.{numbered_entries};
ghost use Rattle.tenant.specs.Kept.{state_in};
ghost use Rattle.tenant.specs.State.{live};
ghost use Rattle.command_frames.specs.Encoded.{frame_of};
ghost use Rattle.saving.specs.Restored.{create_of, put_of, filled, closings, made_program};
ghost use Rattle.saving.specs.SaveParts.{made_empty, puts_of, creation, frames_of};
ghost use Rattle.saving.specs.declared.save_parts.TheConstants.{KEYS_PER_SAVE_PART};
ghost use Rattle.saving.specs.inside.PartCommands.{part_commands};
ghost use Rattle.saving.specs.inside.Puts.{closing, puts, rest_after};

use crate::birth::Birth;
use crate::save_parts::{KEYS_PER_SAVE_PART, SavePart};
use bpf_maps::MapKey;
use command_frames::{Command, write_command};
use fd_table::{FIRST, MOST};
use insn_codec::write_program;
use std::alloc::{AllocError, Global};
use tagged_model::MapShape;
use tenant::{OpenObject, Tenant, type_number};

/// The type of socket filters (BPF_PROG_TYPE_SOCKET_FILTER): no other type can be loaded, so each saved program has it.
const SOCKET_FILTER: u32 = 1;

/// The two slots of the program that keeps a descriptor open while a tenant is restored: `r0 = 0` (opcode 0xb7) and `exit` (0x95).
const FILLER: [u8; 16] = [0xb7, 0, 0, 0, 0, 0, 0, 0, 0x95, 0, 0, 0, 0, 0, 0, 0];

/// Frames to one tenant, one after another in `frames`, each with its length before it.
#[derive(Drop)]
pub(crate) struct FrameWriter {
    pub(crate) frames: Vec<u8>,
    // The frame that was written last. Its memory is used again for the next one.
    frame: Vec<u8>,
    // The number of the tenant.
    pub(crate) number: u16,
}

/// Appends to `frames` the length of `frame`, in four bytes, little-endian (the low four of the number's eight), and then `frame`.
/// `AllocError`: out of memory; then the length may be in `frames` without the frame, and `SavableTenant::save_part` drops all of `frames`.
fn append_framed(frames: &mut Vec<u8>, frame: &[u8]) -> Result<(), AllocError>
    ensures { OnOk result (frames.new.items ≡ frames.old.items ++ framed frame.now) }
{
    let [a, b, c, d, _, _, _, _] = (frame.len() as u64).to_le_bytes();
    frames.extend_from_slice(&[a, b, c, d])?;
    frames.extend_from_slice(frame)
}

/// How many bytes are before the key in a frame that puts it into a map: length 4, tenant 2, command 2, descriptor 4, flags 8.
const PUT_HEAD: usize = 20;

/// How many bytes the frames have that open a program at each descriptor. Each has length 4, tenant 2, command 2, type 4, and two slots.
const BYTES_OF_LOADS: usize = 28 * MOST;

/// How many bytes the frames have that close all descriptors. Each has length 4, tenant 2, command 2, descriptor 4.
const BYTES_OF_CLOSES: usize = 12 * MOST;

/// How many bytes the frames have that put `keys` keys with their values into a map of this shape. There is one frame for each key:
/// `PUT_HEAD` bytes, from the length field to the flags, then the key and the value. The caller only reserves room by the result, so
/// nothing is proved of it, and the product may saturate.
fn bytes_of_puts(shape: MapShape, keys: usize) -> usize {
    let each = PUT_HEAD + shape.key_size as usize + shape.value_size as usize;
    each.saturating_mul(keys)
}

/// The element of the last of the first `count` keys in the order of a map, or of the map's last key if it has fewer. `None` if `count` is
/// 0, or the map has no key. Earlier parts of a save put these keys, and the part that is written begins with the next key, which
/// `map_entry` finds by the element. In the contract, `numbered_entries` are the map's entries in order, each a key and its value, with the
/// number of its element. The entries after that of the result (`rest_after`; all entries for `None`) are all but the first `count`. `map`
/// is the map's handle. `part` is no part of a save: it has the tenant's `PART` bytes of the arena (`whole`).
fn element_before(tenant: &Tenant, map: MapKey, count: usize, part: &[u8]) -> Option<u32>
    requires whole { length part.now ≡ PART }
    ensures { rest_after result (numbered_entries part.now tenant.now.live map)
        ≡ drop count (numbered_entries part.now tenant.now.live map) }
{
    let mut before = None;
    for _ in 0..count {
        let Some(entry) = tenant.map_entry(map, before, part) else {
            return before;
        };
        before = Some(entry.element);
    }
    before
}

impl FrameWriter {
    /// Makes a writer of the frames of one part of a save, for the tenant with this number. They will be appended to `frames`, which is
    /// still empty (`frames`). `frame` is a buffer for the frame that is written next.
    pub(crate) fn new(alloc: Global, number: u16) -> FrameWriter
        ensures frames { result.frames.items ≡ [] }
        ensures number { result.number ≡ number }
    {
        FrameWriter {
            frames: Vec::new(alloc),
            frame: Vec::new(alloc),
            number,
        }
    }

    /// Appends the frame, with its length before it, by which the tenant closes descriptor `fd` (`written`). `number`, the tenant's number,
    /// is unchanged. The first part of a save opens a program at each descriptor (`append_filling`), so none is free. A later part closes
    /// the descriptor that the object of the next frame then gets, and the last part those that are not open in the saved tenant.
    /// `AllocError`: out of memory.
    fn append_close(&mut self, fd: u32) -> Result<(), AllocError>
        ensures written { OnOk result (self.new.frames.items
            ≡ self.old.frames.items ++ framed (frame_of self.old.number (close fd))) }
        ensures number { self.new.number ≡ self.old.number }
    {
        write_command(self.number, Command::Close { fd }, &mut self.frame)?;
        append_framed(&mut self.frames, &self.frame)
    }

    /// Appends to `frames` a frame that creates a map of this shape, with the frame's length before it: MAP_CREATE with flags 0, to the
    /// tenant `number` (`written`). That number is unchanged (`number`). A save has such a frame for each live map. `AllocError`: out of
    /// memory; then the frame may be incomplete.
    fn append_create(&mut self, shape: MapShape) -> Result<(), AllocError>
        ensures written { OnOk result (self.new.frames.items
            ≡ self.old.frames.items ++ framed (frame_of self.old.number (create_of shape))) }
        ensures number { self.new.number ≡ self.old.number }
    {
        let command = Command::MapCreate {
            kind: type_number(shape.kind),
            key_size: shape.key_size,
            value_size: shape.value_size,
            max_entries: shape.max_entries,
            flags: 0,
        };
        write_command(self.number, command, &mut self.frame)?;
        append_framed(&mut self.frames, &self.frame)
    }

    /// Appends the frame that puts a key and its value into the map at descriptor `fd`, with the frame's length before it (`written`). The
    /// flags are 0 (BPF_ANY), so the key may be present, as each key of a new array is, or absent, as each key of a new hash map is. The
    /// tenant to which the frames go is not changed (`number`). `AllocError`: out of memory; then the frame may be incomplete.
    fn append_update(&mut self, fd: u32, key: &[u8], value: &[u8]) -> Result<(), AllocError>
        ensures written { OnOk result (self.new.frames.items
            ≡ self.old.frames.items
            ++ framed (frame_of self.old.number (put_of fd (key.now, value.now)))) }
        ensures number { self.new.number ≡ self.old.number }
    {
        // The key and the value are not one slice, so `write_command` gets only the key. It replaces the contents of `self.frame`; then the
        // value is appended.
        let command = Command::MapUpdate {
            fd,
            flags: 0,
            key_and_value: key,
        };
        write_command(self.number, command, &mut self.frame)?;
        self.frame.extend_from_slice(value)?;
        append_framed(&mut self.frames, &self.frame)
    }

    /// Appends the frame that loads the program that `slots` spell, eight bytes a slot, with the type `SOCKET_FILTER`, the 1 in `written`.
    /// Before the frame is its length (`framed`). The frame is to the tenant `self.number`, and this number is unchanged (`number`). The
    /// slots are not verified here, but by the tenant that gets the frame. `AllocError`: out of memory.
    fn append_load(&mut self, slots: &[u8]) -> Result<(), AllocError>
        ensures written { OnOk result (self.new.frames.items
            ≡ self.old.frames.items ++ framed (frame_of self.old.number (prog_load 1 slots.now))) }
        ensures number { self.new.number ≡ self.old.number }
    {
        let command = Command::ProgLoad {
            kind: SOCKET_FILTER,
            slots,
        };
        write_command(self.number, command, &mut self.frame)?;
        append_framed(&mut self.frames, &self.frame)
    }

    /// Appends the frames that open a program at each descriptor of a new tenant: `MOST` loads of `FILLER`, a program that returns 0
    /// (`filled` in the contract). Then no descriptor is free. So the frames that restore an object first close the descriptor that the
    /// object had, and the object gets this one, the only free one. `AllocError`: out of memory.
    fn append_filling(&mut self) -> Result<(), AllocError>
        ensures written { OnOk result (self.new.frames.items
            ≡ self.old.frames.items ++ frames_of self.old.number (filled most)) }
    {
        // Room for all at once, so that the frames are not moved while they grow.
        self.frames.reserve(BYTES_OF_LOADS)?;
        for _ in 0..MOST {
            self.append_load(&FILLER)?;
        }
        Ok(())
    }

    /// Appends the frame that closes descriptor `fd`, if `fd` is not open in `tenant`, the saved tenant; appends nothing if it is. In
    /// `written`, `named` is the object that `fd` names in the saved tenant, `closing` has the command of the frame, or none, and
    /// `frames_of` makes the frame, with its length before it. When the last part of a save begins, all descriptors are open in the tenant
    /// that is restored; these closes leave open only those of the saved tenant. `number`, the number of the tenant to which the frames go,
    /// is unchanged. `AllocError`: out of memory.
    fn append_close_unless_open(&mut self, tenant: &Tenant, fd: u32) -> Result<(), AllocError>
        ensures written { OnOk result (self.new.frames.items
            ≡ self.old.frames.items ++ frames_of self.old.number
            (closing fd (named tenant.now.objects fd))) }
        ensures number { self.new.number ≡ self.old.number }
    {
        match tenant.object(fd) {
            None => self.append_close(fd),
            Some(_) => Ok(()),
        }
    }

    /// Appends the frames of the last part of a save: for each descriptor that is not open in `tenant`, the saved tenant, a frame that
    /// closes it. In the contract `closings` has these commands, for the `most` descriptors from `first_descriptor` on; `frames_of` makes
    /// them frames to tenant `self.number`, each with its length before it. The earlier parts open a program at each descriptor of the
    /// tenant that is restored. Before they create an object, they close the descriptor that it had, so the object gets this one, the only
    /// free one. `AllocError`: out of memory.
    fn append_closing(&mut self, tenant: &Tenant) -> Result<(), AllocError>
        ensures written { OnOk result (self.new.frames.items
            ≡ self.old.frames.items ++ frames_of self.old.number
            (closings tenant.now.objects first_descriptor most)) }
    {
        // Room for all at once, even if fewer are closed, so that the frames are not moved while they grow.
        self.frames.reserve(BYTES_OF_CLOSES)?;
        for fd in FIRST..FIRST + MOST as u32 {
            self.append_close_unless_open(tenant, fd)?;
        }
        Ok(())
    }

    /// Appends to `frames` the frames that put keys of `map` of the saved tenant, with their values, into the map at descriptor `fd` of the
    /// restored tenant: one update for each key (`puts`), at most `KEYS_PER_SAVE_PART`, in the order of `map`. Each is a frame of the
    /// tenant `number`, with its length before it (`frames_of`). `before` is the element of the last key that earlier parts of the save
    /// put: the first frame has the key after it, or the first key of the map if `before` is `None` (`rest_after`). If no key has this
    /// element, or none follows, no frame is appended. `part` is no part of a save: it has the tenant's `PART` bytes of the arena
    /// (`whole`), among them the values. `AllocError`: out of memory.
    fn append_updates_after(
        &mut self,
        tenant: &Tenant,
        map: MapKey,
        fd: u32,
        before: Option<u32>,
        part: &[u8],
    ) -> Result<(), AllocError>
        requires whole { length part.now ≡ PART }
        ensures written { OnOk result (self.new.frames.items
            ≡ self.old.frames.items ++ frames_of self.old.number
            (puts fd (take KEYS_PER_SAVE_PART
            (rest_after before (numbered_entries part.now tenant.now.live map))))) }
    {
        let mut after = before;
        for _ in 0..KEYS_PER_SAVE_PART {
            let Some(entry) = tenant.map_entry(map, after, part) else {
                return Ok(());
            };
            self.append_update(fd, entry.key.bytes(), entry.value)?;
            after = Some(entry.element);
        }
        Ok(())
    }

    /// Appends the frames of one part of a save that put keys of `map` and their values into the restored map: one update for each key from
    /// index `first` on, in the order of `map`, at most `KEYS_PER_SAVE_PART`, 1,024. In these frames `fd` is the descriptor of the restored
    /// map. In the contract, `puts_of` has the commands for all keys, and `frames_of` their frames to the tenant `self.number`, each with
    /// its length before it. Appends no frame if no key has index `first`, or if `map` is not live; the caller passes the map of a birth,
    /// which is always live. `part` is no part of a save: it has the tenant's `PART` bytes of the arena. `AllocError`: out of memory.
    fn append_keys(
        &mut self,
        tenant: &Tenant,
        map: MapKey,
        fd: u32,
        first: usize,
        part: &[u8],
    ) -> Result<(), AllocError>
        requires whole { length part.now ≡ PART }
        ensures written { OnOk result (self.new.frames.items
            ≡ self.old.frames.items ++ frames_of self.old.number
            (take KEYS_PER_SAVE_PART (drop first
            (puts_of fd (live (state_in part.now tenant.now) map))))) }
    {
        let Some(shape) = tenant.map_shape(map) else {
            return Ok(());
        };
        let left = (tenant.key_count(map) as usize).saturating_sub(first);
        // Room for all at once, so that the frames are not moved while they grow.
        self.frames
            .reserve(bytes_of_puts(shape, left.min(KEYS_PER_SAVE_PART)))?;
        let before = element_before(tenant, map, first, part);
        self.append_updates_after(tenant, map, fd, before, part)
    }

    /// Appends the frame, with its length before it, that creates a map without keys, of the shape that the map of handle `map` has in
    /// `tenant`, the saved tenant. No frame if this map is not live. That does not occur: the caller, `append_creation`, has the handle
    /// from a birth, and after each close the births of maps that are no longer live are removed. `written`: the frame is that of the
    /// command in `made_empty`, a list of one or none, to the tenant with the writer's `number`. `part` may be any bytes, since the shape
    /// of a map does not depend on them. `AllocError`: out of memory.
    fn append_map(&mut self, tenant: &Tenant, map: MapKey) -> Result<(), AllocError>
        ensures written { (part : List ℕ) → OnOk result (self.new.frames.items
            ≡ self.old.frames.items ++ frames_of self.old.number
            (made_empty (live (state_in part tenant.now) map))) }
    {
        match tenant.map_shape(map) {
            Some(shape) => self.append_create(shape),
            None => Ok(()),
        }
    }

    /// Appends to `frames` a frame for the tenant `self.number`, with its length before it, which loads the program that descriptor `fd` of
    /// `tenant`, the saved tenant, names. By `written` it is the frame (`frames_of`) of the command in `made_program`, a list of one:
    /// PROG_LOAD with the program's slots. If `fd` names no program, the list is empty, and nothing is appended. That does not happen:
    /// `append_creation` calls this for the birth of a program, which is open at `fd`. `AllocError`: out of memory; then nothing is
    /// promised of the frames.
    fn append_program(&mut self, tenant: &Tenant, alloc: Global, fd: u32) -> Result<(), AllocError>
        ensures written { OnOk result (self.new.frames.items
            ≡ self.old.frames.items ++ frames_of self.old.number
            (made_program (named tenant.now.objects fd))) }
    {
        let Some(OpenObject::Program(program)) = tenant.object(fd) else {
            return Ok(());
        };
        let slots = write_program(alloc, program.program().program())?;
        self.append_load(&slots)
    }

    /// Appends the frames that close the descriptor of `birth` and then create its object, a map without keys or a program. The object gets
    /// this descriptor, since all others are open in the tenant that is restored. `tenant` is the saved one. By `written` the frames have
    /// the commands of `creation`; each frame is for the tenant with the writer's `number`, and has its length before it (`frames_of`).
    /// This holds whatever bytes the saved tenant has in its part of the arena (`part`): no map's shape and no program depends on them.
    /// `AllocError`: out of memory.
    fn append_creation(
        &mut self,
        tenant: &Tenant,
        alloc: Global,
        birth: Birth,
    ) -> Result<(), AllocError>
        ensures written { (part : List ℕ) → OnOk result (self.new.frames.items
            ≡ self.old.frames.items ++ frames_of self.old.number
            (creation (state_in part tenant.now) birth)) }
    {
        match birth {
            Birth::OfMap(map, fd) => {
                self.append_close(fd)?;
                self.append_map(tenant, map)
            }
            Birth::OfProgram(fd) => {
                self.append_close(fd)?;
                self.append_program(tenant, alloc, fd)
            }
        }
    }

    /// Appends the frames of `wanted`, one part of a save of `tenant`, whose commands are `part_commands` of the tenant's state. `Filling`
    /// opens a program at each descriptor, so that each object created later gets the descriptor that was closed just before. `Creation`
    /// closes the descriptor of a birth and creates the object there. `Keys` puts at most `KEYS_PER_SAVE_PART` keys of the map with handle
    /// `map`, from the one with index `first` on, into the map at descriptor `fd`. `Closing` closes the descriptors that are not open in
    /// `tenant`.
    ///
    /// Each frame is for the tenant with the writer's `number`, and has its length before it (`frames_of`). The argument `part` is no part
    /// of a save: it has the tenant's `PART` bytes of the arena, among them the values of maps. `AllocError`: out of memory.
    pub(crate) fn write(
        &mut self,
        tenant: &Tenant,
        alloc: Global,
        wanted: SavePart,
        part: &[u8],
    ) -> Result<(), AllocError>
        requires whole { length part.now ≡ PART }
        ensures written { OnOk result (self.new.frames.items
            ≡ self.old.frames.items ++ frames_of self.old.number
            (part_commands (state_in part.now tenant.now) wanted)) }
    {
        match wanted {
            SavePart::Filling => self.append_filling(),
            SavePart::Creation(birth) => self.append_creation(tenant, alloc, birth),
            SavePart::Keys(map, fd, first) => self.append_keys(tenant, map, fd, first, part),
            SavePart::Closing => self.append_closing(tenant),
        }
    }
}
