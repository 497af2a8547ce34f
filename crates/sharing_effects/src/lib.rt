// What comes of an arrival or a closing that its numbers allow: `Ok` with an effect where it was made, `Err` where it was
// refused, and every lent byte is as it was.
#![tactic(auto)]

// What was done: the bench that holds the job in the end (0 for a closed one), the bench whose load rose or fell, and the
// other jobs that changed holder.
// Kept: 0 for a closed job's holder, the table's format: what it has for any job that does not stand.
#[derive(Clone, Copy)]
pub struct Effect {
    pub holder: usize,
    pub bench: usize,
    pub moved: usize,
}
