// A board under test, and what is known of it.
use test_solver::Size;
use test_solver::job_book::Book;
use test_solver::tables::Table;

// No board here has more jobs.
pub const MOST_JOBS: usize = 8;

#[derive(Clone, Copy)]
pub struct Board {
    pub table: Table,
    // How many bytes of the table's words a call is given.
    pub length: usize,
    pub book: Book,
    // Known to be level.
    pub level: bool,
}

impl Board {
    // Makes a board without jobs.
    pub fn blank(size: Size, level: bool) -> Board {
        let table = Table::blank(size);
        Board {
            table,
            length: table.length(),
            book: Book::empty(),
            level,
        }
    }
}
