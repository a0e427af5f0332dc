// The frames that are under way over the three links. The ends put them here and take them from here; the weather decides what
// becomes of them in between.
use crate::chance::Chance;
use crate::tally::Tally;
use engine::DATA_BYTES;

// The slots of the links whose fate differs from that of cable 1.
pub const CABLE_2: u8 = 1;

pub const RADIO: u8 = 2;

// The two ends.
#[derive(Clone, Copy, PartialEq, Eq)]
pub enum Side {
    Scanner,
    Server,
}

impl Side {
    pub fn other(self) -> Self {
        match self {
            Side::Scanner => Side::Server,
            Side::Server => Side::Scanner,
        }
    }
}

// The longest frame.
const FRAME_BYTES: usize = 9;

// Bytes, of which there are at most so many.
#[derive(Clone, Copy)]
struct Bytes<const MOST: usize> {
    bytes: [u8; MOST],
    length: usize,
}

impl<const MOST: usize> Bytes<MOST> {
    fn of(run: &[u8]) -> Self {
        let mut bytes = [0u8; MOST];
        for (to, byte) in bytes.iter_mut().zip(run) {
            *to = *byte;
        }
        Self {
            bytes,
            length: run.len(),
        }
    }

    fn as_slice(&self) -> &[u8] {
        self.bytes.get(..self.length).unwrap_or(&[])
    }
}

// What is put on a link: a message's frame, and the bytes that it carries.
#[derive(Clone, Copy)]
pub struct Parcel {
    pub slot: u8,
    to: Side,
    frame: Bytes<FRAME_BYTES>,
    payload: Bytes<DATA_BYTES>,
}

impl Parcel {
    pub fn new(slot: u8, to: Side, frame: &[u8], payload: &[u8]) -> Self {
        Self {
            slot,
            to,
            frame: Bytes::of(frame),
            payload: Bytes::of(payload),
        }
    }

    pub fn frame(&self) -> &[u8] {
        self.frame.as_slice()
    }

    pub fn payload(&self) -> &[u8] {
        self.payload.as_slice()
    }
}

// How far a parcel has come.
#[derive(Clone, Copy, PartialEq, Eq)]
enum Stage {
    // the weather has not seen it yet
    New,
    // it comes after so many more ticks
    Coming(u8),
    Arrived,
}

// The stage of what takes so many ticks: after the last of them it is there.
fn after(ticks: u8) -> Stage {
    if ticks <= 1 {
        Stage::Arrived
    } else {
        Stage::Coming(ticks)
    }
}

#[derive(Clone, Copy)]
pub struct Place {
    stage: Stage,
    parcel: Parcel,
}

// Takes what is in a place, if it is there and goes to this end.
pub fn take(place: &mut Option<Place>, to: Side) -> Option<Parcel> {
    place
        .take_if(|place| place.stage == Stage::Arrived && place.parcel.to == to)
        .map(|place| place.parcel)
}

const PLACES: usize = 128;

#[derive(Clone, Copy)]
pub struct Air {
    pub places: [Option<Place>; PLACES],
    chance: Chance,
}

impl Air {
    // With nothing under way. The chances of every journey are those of every other.
    pub fn clear() -> Self {
        Self {
            places: [None; PLACES],
            chance: Chance(1189),
        }
    }

    // Puts a parcel into the first free place; where there is none, it is lost.
    fn place(&mut self, stage: Stage, parcel: Parcel, tally: &mut Tally) {
        for place in self.places.iter_mut() {
            if place.is_none() {
                *place = Some(Place { stage, parcel });
                return;
            }
        }
        tally.lost.add_one();
    }

    // Gives a parcel to a link.
    pub fn put(&mut self, parcel: Parcel, tally: &mut Tally) {
        tally.frames.add_one();
        self.place(Stage::New, parcel, tally);
    }

    // A cable takes 2 to 5 ticks, the radio 4 to 27, so that frames overtake each other; some frames take much longer.
    fn stage(&mut self, slot: u8, tally: &mut Tally) -> Stage {
        let number = self.chance.next();
        let ticks = if self.chance.strikes(30) {
            tally.delayed.add_one();
            30 + number % 64
        } else if slot == RADIO {
            4 + number % 24
        } else {
            2 + number % 4
        };
        after(ticks as u8)
    }

    // What becomes of a new parcel: it may be lost. Else a link may repeat it; the second one has its own time.
    fn meet(&mut self, parcel: Parcel, tally: &mut Tally) -> Option<Place> {
        let slot = parcel.slot;
        let (loss, repeats) = if slot == RADIO { (120, 60) } else { (25, 20) };
        if self.chance.strikes(loss) {
            tally.lost.add_one();
            return None;
        }
        let stage = self.stage(slot, tally);
        if self.chance.strikes(repeats) {
            tally.repeated.add_one();
            let again = self.stage(slot, tally);
            self.place(again, parcel, tally);
        }
        Some(Place { stage, parcel })
    }

    // A tick of weather: the parcels that it knows come nearer, and it meets the new ones. By index: a parcel that is repeated meanwhile goes
    // to another place.
    pub fn pass(&mut self, tally: &mut Tally) {
        for k in 0..PLACES {
            let Some(place) = &mut self.places[k] else {
                continue;
            };
            match place.stage {
                Stage::New => {
                    let parcel = place.parcel;
                    self.places[k] = self.meet(parcel, tally);
                }
                Stage::Coming(ticks) => place.stage = after(ticks.saturating_sub(1)),
                Stage::Arrived => {}
            }
        }
    }

    // A link dies: what is under way over it doesn't arrive.
    pub fn cut(&mut self, slot: u8, tally: &mut Tally) {
        for place in self.places.iter_mut() {
            if matches!(place, Some(place) if place.parcel.slot == slot) {
                *place = None;
                tally.cut_off.add_one();
            }
        }
    }
}
