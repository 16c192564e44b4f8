//! A URL outside a site, as a row shows it. It is in a file of its own because the definitions of the rows speak of it.
ghost use Rattle.std.specs.Prelude.{◌≡◌, true};
ghost use Rattle.site_check.specs.Totals.{is_leaving};

use crate::linked::Linked;
use check_report::Kind;

/// A URL on the site's host that is not below its top.
#[derive(Drop)]
pub(crate) struct Outside<'a> {
    /// The result with this URL, and how many of the site's results link to it.
    pub(crate) linked: Linked<'a>,
    /// The URL as it is shown.
    pub(crate) text: String,
    /// The kind of its row.
    pub(crate) kind: Kind,
    /// The folder in which it was looked up.
    pub(crate) folder: Option<&'a str>,
    /// The page that may be meant.
    pub(crate) page: Option<String>,
    ghost is_its_kind: { is_leaving kind ≡ true },
}
