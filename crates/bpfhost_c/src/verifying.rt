//! The verifier's log.

ghost use Rattle.std.specs.Prelude.{◌≡◌, ◌≢◌, ℕ, List, length, slice_get, string_bytes, IfOk};
ghost use Rattle.host_core.specs.Targets.{targets_if_served};
ghost use Rattle.log_core.specs.Slots.{IsLogOfSlots};
ghost use Rattle.bpfhost_c.specs.Calls.{states};
ghost use Rattle.bpfhost_c.specs.Logs.{Logs, style_of, text_in, verify_code};
ghost use Rattle.bpfhost_c.specs.declared.codes.TheConstants.{DONE, ERR_NO_MEMORY};

use crate::codes::{DONE, ERR_NO_HOST, ERR_NO_MEMORY, ERR_STYLE};
use crate::handle::Handle;
use host_core::Host;
use log_core::{LogStyle, SlotsLog, log_of_slots};
use std::alloc::{AllocError, Global};

/// The length of a whole log in bytes, even if only its front fitted in the caller's room, and whether the program is accepted.
#[derive(Drop)]
#[repr(C)]
pub struct Logged {
    pub length: usize,
    pub is_accepted: bool,
}

/// The style of a log by the number that a caller of `bpfhost_c_verify` gives: 0 for lines with what is new before each instruction, 1 for
/// lines with all that is known, 2 for a graph; `None` for any other number, for which that call returns `ERR_STYLE`.
fn style_of(number: u32) -> Option<LogStyle>
    ensures { result ≡ style_of number }
{
    match number {
        0 => Some(LogStyle::New),
        1 => Some(LogStyle::Whole),
        2 => Some(LogStyle::Graph),
        _ => None,
    }
}

/// Writes as much of `text`, a log, as fits to the front of `room`, the caller's buffer, and a zero byte after it, as C ends a string. The
/// bytes of `room` after the zero are unchanged. In an empty room there is no byte for the zero, and nothing is written.
fn write_text(text: &[u8], room: &mut [u8])
    ensures { room.new ≡ text_in text.now room.old }
{
    if room.is_empty() {
        return;
    }
    let count = text.len().min(room.len() - 1);
    room[..count].copy_from_slice(&text[..count]);
    room[count] = 0;
}

/// The log of the program that the bytes of `slots` spell (`text`), and whether the program is accepted (`is_accepted`). By `style` the log
/// has lines with what is new before each instruction (`New`) or with all that is known there (`Whole`), or it is a graph (`Graph`). If the
/// bytes spell no program, the log is one line, their refusal, and `is_accepted` is false. The program is verified with the objects that
/// the descriptors of `tenant` name; for a tenant that is not served no descriptor is open (`targets_if_served`). By the contract
/// (`IsLogOfSlots`) `is_accepted` is the verdict, and a log in lines ends in the verdict; of a graph nothing more is promised.
/// `AllocError`: out of memory; then there is no verdict.
fn log_in(
    alloc: Global,
    host: &Host,
    tenant: usize,
    slots: &[u8],
    style: LogStyle,
) -> Result<SlotsLog, AllocError>
    ensures { IfOk result (λ log. IsLogOfSlots slots.now
        (targets_if_served (slice_get host.now.states tenant)) style log.is_accepted
        (string_bytes log.text)) }
{
    let named = host.targets(tenant)?;
    log_of_slots(alloc, slots, &named, style)
}

/// Verifies the program that the bytes of `slots` spell, as a load of `tenant` verifies it, with the objects that its descriptors name
/// at this moment; for a tenant that is not served nothing is open. Writes the length of the log and the verdict to `logged`, and as
/// much of the log as fits to the front of `room`, with a zero byte after it. `style` is 0 for a line for each instruction with what is
/// new before it, 1 for one with all that is known, 2 for a graph for Graphviz. For slots that are no program the log is the line of
/// their refusal.
///
/// Returns `DONE`; else `ERR_NO_HOST`, `ERR_STYLE` or `ERR_NO_MEMORY`, and `room` and `logged` are unchanged. The host is unchanged.
#[unsafe(no_mangle)]
pub extern "C" fn bpfhost_c_verify(
    alloc: Global,
    handle: &mut Handle,
    tenant: u16,
    slots: &[u8],
    style: u32,
    room: &mut [u8],
    logged: &mut Logged,
) -> i32
    ensures done { result ≡ DONE → (text : List ℕ)
        × Logs style slots.now (targets_if_served (slice_get (states handle.old.session) tenant))
        logged.new.is_accepted text
        × (logged.new.length ≡ length text) × (room.new ≡ text_in text room.old) }
    ensures code { result ≢ ERR_NO_MEMORY → result ≡ verify_code handle.old.session style }
    ensures memory { result ≡ ERR_NO_MEMORY → verify_code handle.old.session style ≡ DONE }
    ensures host { handle.new.session ≡ handle.old.session }
    ensures room { result ≢ DONE → room.new ≡ room.old }
    ensures logged { result ≢ DONE → logged.new ≡ logged.old }
{
    let Some(session) = handle.take(alloc) else {
        return ERR_NO_HOST;
    };
    let Some(style) = style_of(style) else {
        handle.put(session);
        return ERR_STYLE;
    };
    let log = log_in(alloc, &session.host, usize::from(tenant), slots, style);
    handle.put(session);
    match log {
        Ok(SlotsLog { text, is_accepted }) => {
            logged.length = text.len();
            logged.is_accepted = is_accepted;
            write_text(text.as_bytes(), room);
            DONE
        }
        Err(_) => ERR_NO_MEMORY,
    }
}
