//! The errors of a check of a folder, and of its saved web.
ghost use Rattle.std.specs.Prelude.{◌≡◌, false};
ghost use Rattle.mercator_site.specs.Errors.{is_unfinished, of_check, of_crawl, of_list, of_site};
ghost use Rattle.mercator_site.specs.declared.error.FolderError.TheVariants as wrong;

use crawl_run::{CrawlError, CrawlFailure};
use site_check::CheckError;
use site_files::{ListError, SiteError};
use std::alloc::{AllocError, AllocFailed};

/// Why a folder has no report, or no saved web.
#[derive(Drop)]
pub enum FolderError {
    /// The folder cannot be read.
    CannotReadFolder,
    /// BASE is not an http or https URL without a query, or it is the URL of an index file.
    BadBase,
    /// The host of BASE has a character that a filter does not accept.
    BadHost,
    /// The folder has no files.
    NoFiles,
    /// The site list is not valid. The reason is never that memory ran out.
    List(ListError),
    /// No URL of the site list is below BASE.
    NoneListed,
    /// The folder of a map, which has this name with its hidden characters escaped, cannot be read.
    CannotReadMap(String),
    /// The folder of a map, which has this name with its hidden characters escaped, has no files.
    NoMapFiles(String),
    /// A seed is not a URL below BASE.
    BadSeed,
    /// There is no page at this link, which is a seed with its hidden characters escaped, or `./`, the top.
    NoStart(String),
    /// The folder has no documents at which a check starts.
    NoDocuments,
    /// The saved web exceeds the limit of a crawl.
    TooLarge,
    /// Not every page of the site was made, which would be a bug.
    PagesLost,
    /// A file with a link that is reported cannot be read a second time.
    FileUnread,
    /// A link that is reported leads elsewhere when its file is read a second time.
    FileChanged,
    /// The location of a link to a missing page or a missing anchor is not reported, which would be a bug.
    LinkLost,
    /// The crawl of the site failed. The reason is never that memory ran out.
    Crawl(CrawlFailure),
    /// An allocation failed.
    NoMemory,
}

impl From<AllocError> for FolderError {
    ghost from_gives = { λ _ error. error ≡ wrong.NoMemory };

    fn from(_refused: AllocError) -> FolderError {
        FolderError::NoMemory
    }
}

impl<T: Drop> From<AllocFailed<T>> for FolderError {
    ghost from_gives = { λ _ error. error ≡ wrong.NoMemory };

    fn from(_refused: AllocFailed<T>) -> FolderError {
        FolderError::NoMemory
    }
}

impl From<SiteError> for FolderError {
    ghost from_gives = { λ why error. (error ≡ of_site why) × (is_unfinished error ≡ false) };

    fn from(error: SiteError) -> FolderError {
        match error {
            SiteError::BadBase => FolderError::BadBase,
            SiteError::NoFiles => FolderError::NoFiles,
            SiteError::NoneListed => FolderError::NoneListed,
            SiteError::TooLarge => FolderError::TooLarge,
            SiteError::NoMemory => FolderError::NoMemory,
            SiteError::Io(_) => FolderError::CannotReadFolder,
        }
    }
}

impl From<ListError> for FolderError {
    ghost from_gives = { λ why error. (error ≡ of_list why) × (is_unfinished error ≡ false) };

    fn from(error: ListError) -> FolderError {
        match error {
            ListError::NoMemory => FolderError::NoMemory,
            _ => FolderError::List(error),
        }
    }
}

impl From<CheckError> for FolderError {
    ghost from_gives = { λ why error. (error ≡ of_check why) × (is_unfinished error ≡ false) };

    fn from(error: CheckError) -> FolderError {
        match error {
            CheckError::FileUnread => FolderError::FileUnread,
            CheckError::FileChanged => FolderError::FileChanged,
            CheckError::LinkLost => FolderError::LinkLost,
            CheckError::NoMemory => FolderError::NoMemory,
        }
    }
}

impl From<CrawlFailure> for FolderError {
    ghost from_gives = { λ failure error. error ≡ of_crawl failure };

    fn from(failure: CrawlFailure) -> FolderError {
        match failure.error {
            CrawlError::NoMemory => FolderError::NoMemory,
            _ => FolderError::Crawl(failure),
        }
    }
}
