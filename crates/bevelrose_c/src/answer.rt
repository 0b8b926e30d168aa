//! How a call answers: by a status, and by a text in the room that its caller has for it.
ghost use Rattle.bevelrose_c.specs.Answers.{Answers, IsGiven, TellsOrLacks};

use crate::refusal::Refusal;
use std::alloc::Global;

/// Puts this text at the front of the room where it fits, and says how long it is. Where it doesn't fit, the room stays as it is.
pub fn give(text: &[u8], room: &mut [u8], size: &mut usize)
    ensures { IsGiven text.now room.old room.new size.new }
{
    *size = text.len();
    if text.len() <= room.len() {
        room[..text.len()].copy_from_slice(text);
    }
}

/// Tells of a refusal. Where there is no memory to tell of it, that is told.
pub fn refuse(alloc: Global, refusal: Refusal, room: &mut [u8], size: &mut usize) -> u8
    ensures { TellsOrLacks (Answers room.old room.new size.new result) refusal }
{
    match format!(in alloc; "{refusal}") {
        Ok(line) => {
            give(line.as_bytes(), room, size);
            refusal.status()
        }
        Err(_) => {
            give(b"memory", room, size);
            Refusal::Memory.status()
        }
    }
}
