// The values of an answer.

// Up to three numbers, of an answer or of a command.
#[derive(Clone, Copy)]
pub struct Values {
    pub count: usize,
    pub numbers: [usize; Values::MOST],
}

impl Values {
    ghost use Rattle.std.specs.Prelude.{◌≡◌, ◌≤◌, take, ℕ};
    ghost use Rattle.std.specs.Option.{unwrap_or};
    ghost use Rattle.spec_lists.specs.Lists.{nth};
    ghost use Rattle.board_answers.specs.Answered.{values_of};

    // The most numbers that there are.
    pub const MOST: usize = 3;

    // Holds the first three of these numbers, all of them where there are no more.
    pub fn of(numbers: &[usize]) -> Values
        ensures numbers { values_of result ≡ take 3 numbers.now }
        ensures count_most { result.count ≤ 3 }
    {
        let count = numbers.len().min(Values::MOST);
        let mut held = [0; Values::MOST];
        held[..count].copy_from_slice(&numbers[..count]);
        Values {
            count,
            numbers: held,
        }
    }

    // Gives all of them, in their order.
    pub fn as_slice(&self) -> &[usize]
        ensures { result.now ≡ values_of self.now }
    {
        &self.numbers[..self.count.min(Values::MOST)]
    }

    // Gives value k, counted from 1.
    pub fn get(self, k: usize) -> Option<usize>
        ensures { (otherwise : ℕ) → unwrap_or result otherwise ≡ nth (values_of self) k otherwise }
    {
        let index = k.checked_sub(1)?;
        self.as_slice().get(index).copied()
    }
}
