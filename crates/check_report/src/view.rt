//! Which broken links a report lists, and in which order.

/// The order of the broken links.
#[derive(Clone, Copy)]
pub enum Order {
    /// By target, as they are given.
    Given,
    /// By target: each kind in the natural order of its names, and the locations of each target by file.
    Target,
    /// By file.
    File,
}

/// What is listed of the broken links.
#[derive(Clone, Copy)]
pub struct View {
    pub order: Order,
    /// Whether all locations of a target are listed, not only three.
    pub all: bool,
}
