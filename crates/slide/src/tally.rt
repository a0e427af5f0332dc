// What happened on a journey, counted by kind.

// How often something happened, or the greatest number so far.
#[derive(Clone, Copy, PartialEq, Eq)]
pub struct Count(pub u64);

impl Count {
    pub const NONE: Self = Self(0);

    // Nothing here happens so often that the number would stay as it is.
    pub fn add_one(&mut self) {
        self.0 = self.0.saturating_add(1);
    }

    pub fn raise(&mut self, n: u64) {
        self.0 = self.0.max(n);
    }
}

#[derive(Clone, Copy)]
pub struct Tally {
    // frames put on a link, and the misfortunes that struck them
    pub frames: Count,
    pub lost: Count,
    pub repeated: Count,
    pub delayed: Count,
    pub cut_off: Count,
    // reliable messages that arrived before one with a smaller number, or again after they had been passed
    pub ahead: Count,
    pub again: Count,
    // silent links that were doubted, and messages that were resent
    pub doubted: Count,
    pub resent: Count,
    // calls and frames that were refused, and those of them that were refused with 12: the server had no cell for the number
    pub refused: Count,
    pub window: Count,
    // tiles given by the scanner, and its SendFinish
    pub given: Count,
    pub ended: Count,
    // tiles handed out by the server at their place with their bytes; whatever else it handed out; and the SendFinish after the last
    // tile
    pub good: Count,
    pub wrong: Count,
    pub finished: Count,
    // Consumed messages given by the server
    pub told: Count,
    // ticks; those at which the scanner had a tile and no room for it while the server had no cell for the oldest message that the scanner
    // kept; and those at which it had no room otherwise, since an ack or a Consumed was still under way
    pub ticks: Count,
    pub barred: Count,
    pub late: Count,
    // the most messages that were ready at the server and not taken
    pub waited: Count,
}

impl Tally {
    pub const NONE: Self = Self {
        frames: Count::NONE,
        lost: Count::NONE,
        repeated: Count::NONE,
        delayed: Count::NONE,
        cut_off: Count::NONE,
        ahead: Count::NONE,
        again: Count::NONE,
        doubted: Count::NONE,
        resent: Count::NONE,
        refused: Count::NONE,
        window: Count::NONE,
        given: Count::NONE,
        ended: Count::NONE,
        good: Count::NONE,
        wrong: Count::NONE,
        finished: Count::NONE,
        told: Count::NONE,
        ticks: Count::NONE,
        barred: Count::NONE,
        late: Count::NONE,
        waited: Count::NONE,
    };
}
