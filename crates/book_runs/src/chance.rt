// Numbers drawn by a seed: splitmix64.
#[derive(Clone, Copy)]
pub struct Chance {
    state: u64,
}

// A word that shares no pattern with the one given.
pub fn mixed(word: u64) -> u64 {
    let word = (word ^ (word >> 30)).wrapping_mul(0xbf58476d1ce4e5b9);
    let word = (word ^ (word >> 27)).wrapping_mul(0x94d049bb133111eb);
    word ^ (word >> 31)
}

impl Chance {
    pub fn from_seed(seed: u64) -> Chance {
        Chance { state: seed }
    }

    fn word(&mut self) -> u64 {
        self.state = self.state.wrapping_add(0x9e3779b97f4a7c15);
        mixed(self.state)
    }

    // A number below the limit, or 0 where the limit is 0.
    pub fn below(&mut self, limit: usize) -> usize {
        self.word().checked_rem(limit as u64).unwrap_or(0) as usize
    }

    // True once in so many times.
    pub fn once_in(&mut self, times: usize) -> bool {
        self.below(times) == 0
    }

    // One of the elements, if there is one.
    pub fn pick<T: Copy>(&mut self, from: &[T]) -> Option<T> {
        let place = self.below(from.len());
        from.get(place).copied()
    }
}
