//! A site in a folder: its saved web, and the report of its broken links. It writes nothing and reads no command line.
#![tactic(auto)]

mod check;
mod crawl;
mod error;
mod external;
mod false_miss;
mod fixes;
mod folder;
mod index_url;
pub mod laws;
mod mapped;
mod maps;
mod notes;
mod options;
mod own;
mod print;
mod seeds;
mod settings;
mod start;

pub use check::{CheckReport, Files, report_of_files};
pub use check_report::Lists;
pub use error::FolderError;
pub use fixes::{FileFix, fixes_of_folder};
pub use folder::{report_of_folder, web_of_folder};
pub use link_fixes::{DocumentFix, LeftLink, LeftReason};
pub use mapped::MappedFolder;
pub use maps::{FolderMap, MapError, read_maps};
pub use options::{CheckForm, CheckOptions, Fix, ReportOptions, SiteOptions};
pub use settings::CheckSettings;
pub use site_check::Scope;
pub use site_files::Note;
