//! Plays lines, by what their calls are on.

use crate::live_maps::LiveMapsPlayer;
use crate::memory::MemoryPlayer;
use crate::one_map::OneMapPlayer;
use cases::{CaseError, Player, first_word};
use std::alloc::{AllocError, Global};

/// A map, the live maps of a tenant, and a memory, which have nothing to do with each other.
#[derive(Drop)]
pub struct MapPlayer {
    one: OneMapPlayer,
    live: LiveMapsPlayer,
    memory: MemoryPlayer,
}

impl MapPlayer {
    /// A player before its first line: it has no map (`one`), no live maps (`live`), and the smallest memory that `Arena` allows, one part
    /// of one byte (`memory`). `AllocError`: out of memory.
    pub fn new(alloc: Global) -> Result<MapPlayer, AllocError> {
        Ok(MapPlayer {
            one: OneMapPlayer::new(alloc),
            live: LiveMapsPlayer::new(alloc)?,
            memory: MemoryPlayer::new(alloc)?,
        })
    }
}

impl Player for MapPlayer {
    /// Plays a line by its first word, which names the object of the call: `map` one map, `maps` the live maps of a tenant, `memory` an
    /// arena of its own, which has no maps. The second word is the call, the rest its arguments. Returns the call's outcome or its error;
    /// `UnknownWord` for any other first word.
    fn play(&mut self, line: &str) -> Result<String, CaseError> {
        let (word, rest) = first_word(line);
        let (call, rest) = first_word(rest);
        match word {
            "map" => self.one.play(call, rest),
            "maps" => self.live.play(call, rest),
            "memory" => self.memory.play(call, rest),
            _ => Err(CaseError::UnknownWord),
        }
    }
}
