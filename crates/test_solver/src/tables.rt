// Tables, read and written without the board's own code.
use crate::Size;
use crate::bench_loads::Loads;
use crate::job_book::Book;
use crate::words::Words;

// Words of the table's beginning.
pub const BENCHES: usize = 0;

pub const JOBS: usize = 1;

pub const STANDING: usize = 2;

pub const ZERO: usize = 3;

// A word of a job's record.
#[derive(Clone, Copy)]
pub enum Field {
    First,
    Second,
    Holder,
    Next,
}

// Which of the two benches that it names holds a job, as its record tells it.
#[derive(Clone, Copy)]
pub enum Holder {
    First = 1,
    Second = 2,
}

// A table for so many benches and jobs, at the beginning of words that may go on behind it.
#[derive(Clone, Copy)]
pub struct Table {
    pub words: Words,
    pub size: Size,
}

impl Table {
    // Gives the table of a blank board.
    pub fn blank(size: Size) -> Table {
        let mut words = Words::all(0);
        words.put(BENCHES, size.benches);
        words.put(JOBS, size.jobs);
        Table { words, size }
    }

    // Counts its bytes.
    pub fn length(&self) -> usize {
        8 + 2 * self.size.benches + 8 * self.size.jobs
    }

    // Tells where the first job on a bench's chain stands.
    pub fn head(bench: usize) -> usize {
        bench.wrapping_add(3)
    }

    // Tells where a word of a job's record stands.
    pub fn record(&self, job: usize, field: Field) -> usize {
        job.wrapping_mul(4)
            .wrapping_add(self.size.benches)
            .wrapping_add(field as usize)
    }

    // Gives a word of a job's record.
    pub fn field(&self, job: usize, field: Field) -> usize {
        self.words.word(self.record(job, field))
    }

    // Writes a word of a job's record.
    pub fn put_field(&mut self, job: usize, field: Field, word: usize) {
        let place = self.record(job, field);
        self.words.put(place, word);
    }

    // Gives the bench that holds a job, by the job's record.
    pub fn holder(&self, job: usize) -> Option<usize> {
        match self.field(job, Field::Holder) {
            1 => Some(self.field(job, Field::First)),
            2 => Some(self.field(job, Field::Second)),
            _ => None,
        }
    }

    // Makes a job's other bench its holder, in its record alone.
    pub fn hand_over(&mut self, job: usize) {
        match self.field(job, Field::Holder) {
            1 => self.put_field(job, Field::Holder, Holder::Second as usize),
            2 => self.put_field(job, Field::Holder, Holder::First as usize),
            _ => {}
        }
    }

    // Counts the loads by the holder words.
    pub fn loads_held(&self) -> Loads {
        let mut loads = Loads::none();
        for job in 1..self.size.jobs + 1 {
            if let Some(bench) = self.holder(job) {
                loads.add(bench, 1);
            }
        }
        loads
    }

    // Tells whether a standing job's record names the book's benches and a holder, and any other is four zeros.
    fn record_fits(&self, book: &Book, job: usize) -> bool {
        let named = (
            self.field(job, Field::First),
            self.field(job, Field::Second),
        );
        let holder = self.field(job, Field::Holder);
        match book.benches_of(job) {
            Some(benches) => named == benches && (holder == 1 || holder == 2),
            None => named == (0, 0) && holder == 0 && self.field(job, Field::Next) == 0,
        }
    }

    // Tells whether the table has the book's jobs and no other.
    pub fn fits(&self, book: &Book) -> bool {
        (1..self.size.jobs + 1).all(|job| self.record_fits(book, job))
            && self.words.word(STANDING) == book.standing()
    }

    // Writes a standing job's record, puts the job in front of its holder's chain, and counts one more standing job.
    pub fn add_job(&mut self, job: usize, (first, second): (usize, usize), holder: Holder) {
        let head = Table::head(match holder {
            Holder::First => first,
            Holder::Second => second,
        });
        let front = self.words.word(head);
        let standing = self.words.word(STANDING);
        self.put_field(job, Field::First, first);
        self.put_field(job, Field::Second, second);
        self.put_field(job, Field::Holder, holder as usize);
        self.put_field(job, Field::Next, front);
        self.words.put(head, job);
        self.words.put(STANDING, standing + 1);
    }
}
