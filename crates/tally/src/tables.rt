// The table of shares: for each either nothing or its booked digit.

// What a table holds for one share: its digit, once it is booked.
pub type Entry = Option<u8>;

// One entry for each share that a tally can have.
#[derive(Clone, Copy)]
pub struct Table {
    pub(crate) entries: [Entry; 64],
}
