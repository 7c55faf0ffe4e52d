//! What became of the writes that a crash cut short.
ghost use Rattle.std.specs.Prelude.{◌≤◌};

/// What is where a torn write reached.
#[derive(Clone, Copy)]
pub enum Fill {
    /// The bytes as they were written.
    Written,
    Zeros,
    /// Any bytes.
    Noise,
    /// Some bytes as they were written, some as they were before, and some of any value.
    Mixed,
}

/// How a write came through a crash: how many of its bytes have a place, and what is there.
#[derive(Clone, Copy)]
pub struct Tear {
    pub reach: usize,
    pub fill: Fill,
}

/// A sequence of draws, the same for the same number: SplitMix64 (Steele, Lea and Flood, 2014).
#[derive(Drop)]
pub struct Pick {
    state: u64,
}

impl Pick {
    pub fn new(number: u64) -> Self {
        Pick { state: number }
    }

    fn draw(&mut self) -> u64 {
        self.state = self.state.wrapping_add(0x9e37_79b9_7f4a_7c15);
        let mixed = self.state;
        let mixed = (mixed ^ (mixed >> 30)).wrapping_mul(0xbf58_476d_1ce4_e5b9);
        let mixed = (mixed ^ (mixed >> 27)).wrapping_mul(0x94d0_49bb_1331_11eb);
        mixed ^ (mixed >> 31)
    }

    /// How a write of `len` bytes came through. Each kind is as likely as another: nothing arrived, a prefix did, all
    /// did, the length did with zeros or with any bytes, or a prefix of a mix.
    pub fn tear(&mut self, len: usize) -> Tear
        ensures { result.reach ≤ len }
    {
        let kind = self.draw() % 6;
        let part = self.up_to(len);
        match kind {
            0 => Tear {
                reach: 0,
                fill: Fill::Written,
            },
            1 => Tear {
                reach: part,
                fill: Fill::Written,
            },
            2 => Tear {
                reach: len,
                fill: Fill::Written,
            },
            3 => Tear {
                reach: len,
                fill: Fill::Zeros,
            },
            4 => Tear {
                reach: len,
                fill: Fill::Noise,
            },
            _ => Tear {
                reach: part,
                fill: Fill::Mixed,
            },
        }
    }

    /// A number from 0 to `most`.
    fn up_to(&mut self, most: usize) -> usize
        ensures { result ≤ most }
    {
        match (most as u64).checked_add(1) {
            Some(count) => (self.draw() % count) as usize,
            None => most,
        }
    }

    /// What is where `new` was written over `old`.
    pub fn byte(&mut self, fill: Fill, old: u8, new: u8) -> u8 {
        match fill {
            Fill::Written => new,
            Fill::Zeros => 0,
            Fill::Noise => self.any(),
            Fill::Mixed => match self.draw() % 3 {
                0 => old,
                1 => new,
                _ => self.any(),
            },
        }
    }

    fn any(&mut self) -> u8 {
        (self.draw() & 0xff) as u8
    }
}
