/// The progress of a subqueue: how many URLs it accepted, how many of them were taken, and whether the last one taken is not done.
#[derive(Clone, Copy, Debug, PartialEq, Eq)]
pub struct Progress {
    pub accepted: usize,
    pub taken: usize,
    pub busy: bool,
}
