// The scanner's own work: a tile a tick while there is room for it, and after the last one the end of the stream.
use crate::end::End;
use crate::picture::shade;
use crate::tally::Tally;
use crate::world::World;
use engine::{PACKETS, State};
use msg::ReliableMsg;
use tiles::TILES;

// The number of the next tile, where there is one.
fn next_tile(tally: &Tally) -> Option<u16> {
    u16::try_from(tally.given.0).ok().filter(|n| *n < TILES)
}

// Whether there is room for a message: in the packet table, and in the server's receive buffer, within which all has to stay that was
// given and not told as consumed.
fn has_room(s: &State, len: usize, buffer: u32) -> bool {
    let room = buffer.checked_sub(s.tx.txed_unconsumed);
    s.tx.txed_count != PACKETS && room.is_some_and(|room| len <= room as usize)
}

// Whether there is a tile and no room for it.
pub fn is_still(s: &State, tally: &Tally, buffer: u32) -> bool {
    next_tile(tally).is_some_and(|n| !has_room(s, tiles::length(n), buffer))
}

// Gives the next tile, for which there is room.
pub fn scan(end: &mut End, world: &mut World) {
    let slot = world.slot();
    if let Some(n) = next_tile(&world.tally) {
        let tile = tiles::bytes_of(shade(n), n);
        let payload = tile.get(..tiles::length(n)).unwrap_or(&[]);
        if end.give(world, slot, ReliableMsg::Data, payload) {
            world.tally.given.add_one();
        }
    } else if world.tally.ended.0 == 0 && end.give(world, slot, ReliableMsg::SendFinish, b"") {
        world.tally.ended.add_one();
    }
}
