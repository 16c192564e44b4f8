/// The word that the gate shows: the number of units that are held, and whether it is closed.
#[derive(Clone, Copy, Debug, PartialEq, Eq)]
pub struct Word {
    /// The number of units that are held: the opening one, one for each sender in an offer, one for each accepted URL that is not
    /// done.
    pub count: u64,
    /// Whether the gate is closed. A closed gate stays closed.
    pub closed: bool,
}
