// A call, with what it is given.

// Areas are given by their size: they are lent full of zeros.
// Kept: an enum; the clause of a record says which calls were made, and a closure in the place of a call says nothing of that.
#[derive(Clone, Copy)]
pub enum Call<'a, J> {
    Add(&'a [u8]),
    Settle,
    Reopen,
    Write {
        room: usize,
    },
    Row {
        judge: &'a J,
        k: usize,
        work: usize,
    },
    Tally {
        judge: &'a J,
        work: usize,
    },
    Sheet {
        judge: &'a J,
        room: usize,
        work: usize,
    },
}
