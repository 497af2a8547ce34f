// Numbers drawn for the runs, always the same ones.
ghost use Rattle.std.specs.Prelude.{◌<◌, ◌≤◌, ◌-◌, max};

const MODULUS: u64 = 2147483647;

#[derive(Clone, Copy)]
pub struct Seed {
    number: u64,
    ghost in_range: { number < 2147483647 },
}

impl Seed {
    // Gives the seed that all others come after.
    pub fn first() -> Seed {
        Seed { number: 1 }
    }

    // Gives the seed after it.
    fn next(self) -> Seed {
        Seed {
            number: self.number * 48271 % MODULUS,
        }
    }

    // Gives the k-th seed after it.
    pub fn after(self, k: usize) -> Seed {
        let mut seed = self;
        for _ in 0..k {
            seed = seed.next();
        }
        seed
    }

    // Gives the k-th number after it, brought below n; 0 for n 0.
    pub fn below(self, k: usize, n: usize) -> usize
        ensures { result ≤ n - 1 }
    {
        if n == 0 {
            return 0;
        }
        (self.after(k).number / 64) as usize % n
    }

    // Draws a number of 1 to n.
    pub fn within(self, k: usize, n: usize) -> usize
        ensures { result ≤ max n 1 }
    {
        self.below(k, n) + 1
    }

    // Draws mostly a number of 1 to n, else 0 or n + 1, or a larger one that would be in range if it were cut to 16
    // bits. Takes the k-th number and the next.
    pub fn number(self, k: usize, n: usize) -> usize
        requires { n ≤ 10 }
    {
        let next = self.next();
        match self.below(k, 32) {
            0 => next.within(k, n) + 65536,
            1..=4 => next.below(k, n + 2),
            _ => next.within(k, n),
        }
    }

    // Draws a bench of 1 to n that is not this one.
    pub fn other(self, k: usize, n: usize, bench: usize) -> usize {
        let drawn = self.within(k, n.saturating_sub(1));
        if drawn < bench { drawn } else { drawn + 1 }
    }
}
