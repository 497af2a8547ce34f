// A job that is not on the table yet.
ghost use Rattle.std.specs.Prelude.{◌≤◌};

// A job that arrives at one of its two benches, and the other one, to which it leads.
#[derive(Clone, Copy)]
pub struct NewJob {
    pub job: usize,
    pub other: usize,
    pub ghost job_least: { 1 ≤ job },
}
