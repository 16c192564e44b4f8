//! The pages that folders have under other rules.
ghost use Rattle.std.specs.Prelude.{◌≡◌, IfErr, IfOk, OnOk, option_to_list};
ghost use Rattle.site_files.specs.Entries.{Adds, server_at, texts};
ghost use Rattle.site_files.specs.Files.{IsOfUrl};
ghost use Rattle.site_files.specs.Hints.{HasHomes, has_name, home_page, home_pages, is_unlisted_home};

use crate::error::SiteError;
use crate::kinds::{is_home, last_name};
use crate::page_table::{Entry, PageTable, Source};
use crate::pages::folder_of;
use crate::rules::{Rules, split_name};
use crate::site::Site;

impl Site {
    /// The files that may be the pages of their folders but whose names the rules do not have, at the URLs of their folders. Of several in
    /// one folder the first counts.
    pub(crate) fn homes(&self, names: &[String], rules: &Rules) -> Result<PageTable, SiteError>
        ensures error { IfErr result IsOfUrl }
        ensures homes { IfOk result (HasHomes (server_at rules.now self.now) (texts names.now)) }
    {
        let mut entries = Vec::new(*self.top.allocator());
        self.push_homes(names, rules, &mut entries)?;
        let mut others = Vec::new(*self.top.allocator());
        let homes = PageTable::new(entries, &mut others)?;
        Ok(homes)
    }

    /// Adds the page of each such file at the URL of its folder.
    fn push_homes(
        &self,
        names: &[String],
        rules: &Rules,
        entries: &mut Vec<Entry>,
    ) -> Result<(), SiteError>
        ensures error { IfErr result IsOfUrl }
        ensures pages { OnOk result (Adds entries.old.items entries.new.items (home_pages (server_at rules.now self.now) (texts names.now))) }
    {
        'names: for (index, name) in names.iter().enumerate() {
            self.push_home(index, name.as_str(), rules, entries)?;
        }
        Ok(())
    }

    /// Adds the page of the file with this name at the URL of its folder, if it is such a file.
    fn push_home(
        &self,
        index: usize,
        name: &str,
        rules: &Rules,
        entries: &mut Vec<Entry>,
    ) -> Result<(), SiteError>
        ensures error { IfErr result IsOfUrl }
        ensures page { OnOk result (Adds entries.old.items entries.new.items (option_to_list (home_page (server_at rules.now self.now) index name.now))) }
    {
        let (path, query) = split_name(name, rules.queries);
        if !is_unlisted_home(path.as_bytes(), rules) {
            return Ok(());
        }
        match folder_of(path.as_bytes(), last_name(path.as_bytes())) {
            Some(folder) => self.push(folder, query, Source::File(index), entries),
            None => Ok(()),
        }
    }
}

/// Whether the file with this path may be the page of its folder, and the rules do not have its name.
#[tactic(auto, using(crate::proofs::OtherRules::name_listed))]
fn is_unlisted_home(path: &[u8], rules: &Rules) -> bool
    ensures { result ≡ is_unlisted_home (texts rules.now.index_files.items) path.now }
{
    is_home(path) && !is_listed(last_name(path), rules)
}

/// Whether the rules have this name of an index file.
fn is_listed(name: &[u8], rules: &Rules) -> bool
    ensures { result ≡ has_name name.now rules.now.index_files.items }
{
    rules.index_files.iter().any(|one| name == one.as_bytes())
}
