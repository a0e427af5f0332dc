// A fixed run of pseudo-random numbers: every run of the program meets the same misfortunes.

const MODULUS: u64 = 2147483647;

const FACTOR: u64 = 48271;

// The last number of the run.
#[derive(Clone, Copy)]
pub struct Chance(pub u64);

impl Chance {
    pub fn next(&mut self) -> u64 {
        self.0 = self.0 % MODULUS * FACTOR % MODULUS;
        self.0
    }

    // Whether something strikes that does so this often in a thousand times.
    pub fn strikes(&mut self, in_thousand: u64) -> bool {
        self.next() % 1000 < in_thousand
    }
}
