// What the weighing of certificates passes on.

// The best certificate so far: its index, its distance, and its number of terms. The distance is 0 where there is none so far: no certificate
// has that one, and an Option would be None after the last certificate too, where there is always a best.
#[derive(Clone, Copy)]
pub struct Best {
    pub index: usize,
    pub d: usize,
    pub terms: u16,
}
