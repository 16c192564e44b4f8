//! The pages of a thread, in the form that is needed of them.
use crate::page::SitePage;
use std::alloc::{AllocError, Global};

/// Takes the pages that one thread makes.
pub(crate) trait PageSink: Send + Sync + Drop {
    ghost use Rattle.saved_site.specs.declared.page.SitePage.{SitePage};

    /// Which pages are taken. Contracts say by it that each page is the one that a server returns for its URL.
    ghost serves: { SitePage → Type 0 };

    /// No pages of the site with this top.
    fn empty(alloc: Global, top: &str) -> Result<Self, AllocError>;

    /// The same with one more page.
    fn with_page(self, page: SitePage) -> Result<Self, AllocError>
        requires { ∥ serves page ∥₁ };
}
