//! A name for a site in contracts.
use std::marker::Brand;

/// A type that means one site in contracts, since a type can name only types.
pub(crate) trait SiteName {
    ghost use Rattle.saved_site.specs.declared.page.SitePage.{SitePage};

    /// The pages that a server returns for their URLs.
    ghost serves: { SitePage → Type 0 };
}

impl SiteName for Brand {
    ghost serves = { λ _. Unit {0} };
}
