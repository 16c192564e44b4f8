//! The form of a report.

#[derive(Clone, Copy)]
pub enum Form<'a> {
    /// Text, with or without colour.
    Text(bool),
    /// JSON, one object per line.
    Json,
    /// GitHub annotations for the files of this folder.
    Annotations(&'a str),
    /// An HTML page, in which each location is a link to the sources at this URL; empty for none.
    Page(&'a str),
}
