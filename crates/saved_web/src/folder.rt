//! The known links of the pages of a folder.
ghost use Rattle.std.specs.Prelude.{◌≡◌, true, IfOk, IfErr, IfSome};
ghost use Rattle.crawl_keys.specs.Folders as spec;
ghost use Rattle.saved_pages.specs.SavedWeb.{link_url};

use crate::known_links::KnownLinks;
use crawl_keys::{Base, CanonUrl};
use crawl_pages::FetchError;
use saved_pages::LinkText;
use std::alloc::Global;
use std::marker::Model;

/// A page, and the URLs to which some link texts lead from each page of its folder.
#[derive(Drop)]
pub struct Folder<'a> {
    page: Base,
    known: KnownLinks<'a>,
    // Whether an earlier page was in the same folder, so that texts of links may occur again.
    again: bool,
}

// Contracts see the URL of the page.
impl<'a> Model for Folder<'a> {
    ghost use Rattle.std.specs.Prelude.{◌≡◌, ℕ, List};
    ghost use Rattle.saved_web.specs.KnownLinks.{AreLinks, AreOfFolder};

    ghost Value = { List ℕ };

    ghost view = { λ folder. folder.page };

    ghost invariant = { λ folder. AreLinks folder.page folder.known × AreOfFolder folder.known };
}

impl<'a> Folder<'a> {
    /// Makes the folder of this page, without known links. `again` says whether an earlier page was in the same folder.
    pub fn new(alloc: Global, page: Base, again: bool) -> Folder<'a>
        ensures { result ≡ page }
    {
        Folder {
            page,
            known: KnownLinks::new(alloc),
            again,
        }
    }

    /// Returns the folder of the next page. If both pages are in the same folder, the links stay known.
    #[tactic(auto, using(crate::proofs::KnownLinks::on_page_of_folder))]
    pub fn turn_to(self, alloc: Global, page: Base) -> Folder<'a>
        ensures { result ≡ page }
    {
        let Folder {
            page: last,
            known,
            ..
        } = self;
        if last.shares_folder(&page) {
            Folder {
                page,
                known,
                again: true,
            }
        } else {
            Folder::new(alloc, page, false)
        }
    }

    /// Returns the page.
    pub fn page(&self) -> &Base
        ensures { result.now ≡ self.now }
    {
        &self.page
    }

    /// Whether an earlier page was in the folder, so that the URLs of its links are worth remembering.
    pub fn comes_again(&self) -> bool {
        self.again
    }

    /// Returns the number of known texts.
    pub fn len(&self) -> usize {
        self.known.len()
    }

    /// Returns the URL to which a link with this text leads, if it is known.
    pub fn find(&self, text: &LinkText<'a>) -> Option<&Option<CanonUrl>>
        ensures { IfSome result (λ link. link.now ≡ link_url self.now text.now) }
    {
        self.known.find(text)
    }

    /// Returns the URL to which a link with this text leads, and stores it.
    pub fn link(
        &mut self,
        alloc: Global,
        text: &LinkText<'a>,
    ) -> Result<Option<CanonUrl>, FetchError>
        requires { spec.is_of_folder text.now ≡ true }
        ensures link { IfOk result (λ link. link ≡ link_url self.old text.now) }
        ensures page { self.new ≡ self.old }
        ensures refused { IfErr result (λ e. e ≡ FetchError.NoMemory) }
    {
        self.known.link(alloc, &self.page, text)
    }
}
