//! Packets that lie one after another in some bytes, each with the words of its context.
//!
//! # Decisions
//!
//! Packets of a batch are tested before the first of them runs. Three comparisons for each took 13 machine instructions a packet. Now
//! the bits of all lengths and of all ends are collected, which LLVM does for four packets at once, and three comparisons at the end
//! accept almost all batches: 4 machine instructions a packet. The others are tested one by one.

ghost use Rattle.std.specs.Prelude.{◌≡◌, ◌≤◌, true, None, length, IfOk};
ghost use Rattle.std.specs.List.{All};
ghost use Rattle.std.specs.Result.{result_err};
ghost use Rattle.flat_machine.specs.Packets.{longest_packet, packets_in, inputs_of, packets_fault, are_contexts, batch_fault};

use std::marker::Model;
use words::GIVEN_WORDS;

/// The most bytes that a packet may have: this project's own limit.
pub const LONGEST_PACKET: usize = 65_536;

/// The highest bit of a word, 2^63. No slice has so many bytes, so an end of a packet that has it is outside.
const HIGHEST_BIT: usize = 0x8000_0000_0000_0000;

/// Why packets are refused.
#[derive(Clone, Copy, Debug, PartialEq, Eq)]
pub enum PacketFault {
    /// There is neither one array of context words for all packets nor one for each.
    Contexts,
    /// A packet ends before it begins, or after the last byte.
    Outside,
    /// A packet has more than `LONGEST_PACKET` bytes.
    TooLong,
}

/// Packets that lie one after another in some bytes, of at most `LONGEST_PACKET` bytes each, with the words of their contexts:
/// `contexts` has one array for all packets, or one for each. Contracts see the list of packets, each with its words.
#[derive(Drop)]
pub struct Packets<'a> {
    pub(crate) contexts: &'a [[u32; GIVEN_WORDS]],
    pub(crate) bytes: &'a [u8],
    /// For each packet, how many of the bytes are before its end.
    pub(crate) ends: &'a [usize],
}

impl<'a> Model for Packets<'a> {
    ghost use Rattle.std.specs.Prelude.{◌≡◌, List, length, None};
    ghost use Rattle.flat_machine.specs.Packets.{BatchInput, packets_in, inputs_of, batch_fault};

    ghost Value = { List BatchInput };

    ghost view = { λ p. inputs_of p.contexts.now (packets_in p.bytes.now p.ends.now) };

    ghost invariant = { λ p. batch_fault (length p.contexts.now) (length p.bytes.now) p.ends.now
        ≡ None };
}

/// Whether there may be `contexts` arrays of context words for `packets` packets: 1, an array for all packets, or as many as packets, an
/// array for each. `Packets::new` refuses any other number. Without packets, both 0 and 1 are allowed.
#[inline(always)]
fn may_have_contexts(contexts: usize, packets: usize) -> bool
    ensures { result ≡ are_contexts contexts packets }
{
    contexts == 1 || contexts == packets
}

/// A quick test of all packets at once. `ends` has for each packet how many of the `many` bytes are before its end, at which the next
/// packet begins; the first begins at 0. If `true`, no packet has a fault: each ends at or after its beginning, within the bytes, and is
/// shorter than `LONGEST_PACKET`. If `false`, the packets may still be accepted, after a test of each (`first_fault`). `lengths` has every
/// bit that is set in a length, `reach` every bit that is set in an end. `LONGEST_PACKET` is a power of two, so `lengths` is below it
/// exactly if each length is. The length of a packet that ends before its beginning wraps: if no end has the highest bit (`reach`), such a
/// length has this bit, and makes `lengths` too great. So the ends ascend, and only the last, in `start`, is compared with `many`.
#[inline(always)]
fn pass_quick_test(many: usize, ends: &[usize]) -> bool
    ensures { result ≡ true → packets_fault many 0 ends.now ≡ None }
{
    let mut lengths = 0;
    let mut reach = 0;
    let mut start = 0;
    for end in ends {
        lengths |= end.wrapping_sub(start);
        reach |= *end;
        start = *end;
    }
    lengths < LONGEST_PACKET && reach < HIGHEST_BIT && start <= many
}

/// Why packets in `many` bytes are refused: the fault of the first packet that has one, by a test of each in turn; `None` if none has.
/// `Outside` if the packet ends before it begins or after the last byte, else `TooLong` if it has more than `LONGEST_PACKET` bytes. `ends`
/// has for each packet how many of the bytes are before its end. The first packet begins at byte 0, each other at the end of the one
/// before. This function is cold, since the quick test `pass_quick_test` accepts almost all batches, and only the others are tested here.
#[cold]
#[inline(never)]
fn first_fault(many: usize, ends: &[usize]) -> Option<PacketFault>
    ensures { result ≡ packets_fault many 0 ends.now }
{
    let mut start = 0;
    for end in ends {
        if *end < start || many < *end {
            return Some(PacketFault::Outside);
        }
        if LONGEST_PACKET < *end - start {
            return Some(PacketFault::TooLong);
        }
        start = *end;
    }
    None
}

/// Why packets in `many` bytes are refused: the fault of the first packet that has one; `None` if none has. It is `Outside` if the packet
/// ends before it begins or after the last byte, else `TooLong` if it has more than `LONGEST_PACKET` bytes. `ends` has for each packet how
/// many of the bytes are before its end. The first packet begins at byte 0 (the `0` of the contract), each other one at the end of the one
/// before. `first_fault` tests each packet, but only if `pass_quick_test`, a quick test of all, is false. The quick test may be false
/// without a fault: a packet of exactly `LONGEST_PACKET` bytes has none.
#[inline(always)]
fn fault_of(many: usize, ends: &[usize]) -> Option<PacketFault>
    ensures { result ≡ packets_fault many 0 ends.now }
{
    if pass_quick_test(many, ends) {
        None
    } else {
        first_fault(many, ends)
    }
}

impl<'a> Packets<'a> {
    /// The packets in `bytes`, one after another from byte 0 on: the packet of index i ends before byte `ends[i]`, at which the next one
    /// begins. `contexts` has one array of context words for all packets, or one for each: `GIVEN_WORDS` words, all but the first, which is
    /// the packet's length. Contracts see the input of each run, a packet with its words, in order (`inputs_of`).
    ///
    /// # Errors
    ///
    /// `Contexts` if there is neither one array of words nor one for each packet. Else the fault of the first packet that has one:
    /// `Outside` if the packet ends before it begins or after the last byte, `TooLong` if it has more than `LONGEST_PACKET` bytes. By
    /// `fault` the error is that of the definition `batch_fault`, and there is none exactly if that is `None`.
    pub fn new(
        contexts: &'a [[u32; GIVEN_WORDS]],
        bytes: &'a [u8],
        ends: &'a [usize],
    ) -> Result<Packets<'a>, PacketFault>
        ensures packets { IfOk result (λ packets. packets
            ≡ inputs_of contexts.now (packets_in bytes.now ends.now)) }
        ensures count { IfOk result (λ packets. length packets ≡ length ends.now) }
        ensures fault { result_err result
            ≡ batch_fault (length contexts.now) (length bytes.now) ends.now }
    {
        if !may_have_contexts(contexts.len(), ends.len()) {
            return Err(PacketFault::Contexts);
        }
        if let Some(fault) = fault_of(bytes.len(), ends) {
            return Err(fault);
        }
        Ok(Packets {
            contexts,
            bytes,
            ends,
        })
    }

    /// A law: no packet has more than `LONGEST_PACKET` bytes, since `new` refuses longer ones. The proof of `Tenant::run_packets` of
    /// `tenant` needs it, since a test run rejects a longer packet (`TooBig`). The function does nothing when it runs.
    #[inline(always)]
    pub fn packets_are_short(&self)
        ensures { All (λ input. length input.packet ≤ longest_packet) self.now }
    {
        let _ = self.ends.len();
    }
}
