//! Files in memory: their saved web, and a check of them. A file that grows while it is read.
use mercator_site::{CheckSettings, Files, ReportOptions, Scope, report_of_files};
use saved_site::{WebText, site_web};
use site_files::{Body, InMemory, Rules, SiteFiles, SiteNames};
use std::alloc::{AllocError, Global};
use std::io;
use std::io::Read;
use std::sync::Wait;
use std::thread::Threads;

const BASE: &str = "http://a.test/";

/// The beginning of the saved web of the file.
const WEB: &[u8] = b"savedweb 2\npage http://a.test/\nlink gone.html\n";

/// The beginning of the report of its check.
const TOTALS: &[u8] =
    b"pages 1, other files 0, links 1, redirects 0, aliases 0\nbroken links 1, missing pages 1,";

/// A site of one file with a broken link.
#[derive(Drop)]
struct OneFile {
    names: [String; 1],
    bodies: [Vec<u8>; 1],
    rules: Rules,
}

impl OneFile {
    fn new(alloc: Global) -> Result<OneFile, AllocError> {
        let mut index_files = Vec::new(alloc);
        index_files.push(String::from_str(alloc, "index.html")?)?;
        let names = [String::from_str(alloc, "index.html")?];
        let bodies = [b"<a href=gone.html>gone</a>".to_vec(alloc)?];
        let rules = Rules {
            index_files,
            html_fallback: false,
            queries: false,
            exact: false,
            follow: false,
            anchors: true,
            places: true,
            styles: false,
            sniff: true,
            rooted: false,
            threads: 2,
        };
        Ok(OneFile {
            names,
            bodies,
            rules,
        })
    }
}

fn has_web<R: Threads + Sync>(rt: &R, alloc: Global, site: &OneFile) -> bool {
    let input = SiteNames {
        names: &site.names,
        links: &[],
        skipped: &[],
        base: BASE,
        rules: &site.rules,
    };
    let bytes = InMemory {
        bodies: &site.bodies,
    };
    match SiteFiles::new(alloc, input) {
        Ok(files) => have_web(rt, alloc, &files, &bytes),
        Err(_) => false,
    }
}

fn have_web<R: Threads + Sync>(
    rt: &R,
    alloc: Global,
    files: &SiteFiles<'_>,
    bytes: &InMemory<'_>,
) -> bool {
    match site_web(rt, alloc, files, &[], bytes) {
        Ok(web) => is_web(alloc, &web.text),
        Err(_) => false,
    }
}

fn is_web(alloc: Global, web: &WebText) -> bool {
    let mut text = Vec::new(alloc);
    web.write(&mut text).is_ok() && text.as_slice().starts_with(WEB)
}

fn settings(none: &[String]) -> CheckSettings<'_> {
    CheckSettings {
        workers: 2,
        name: BASE,
        front: "",
        ignores: none,
        seeds: none,
        scope: Scope::default(),
        rooted: false,
        maps: &[],
        reachable: false,
        report: ReportOptions::default(),
        folder: "",
        source_url: "",
    }
}

fn is_checked<R: Threads + Wait + Sync>(rt: &R, alloc: Global, site: &OneFile) -> Option<bool> {
    let files = Files {
        names: &site.names,
        bodies: &site.bodies,
    };
    let report = report_of_files(rt, alloc, files, BASE, &site.rules, settings(&[])).ok()?;
    Some(report.is_broken && report.text.as_slice().starts_with(TOTALS))
}

// The saved web of files in memory has the page and its link, and the check reports the link.
#[test]
fn files_in_memory(rt: HostRuntime) {
    let alloc = rt.alloc();
    match OneFile::new(alloc) {
        Ok(site) => {
            assert!(rt; has_web(&rt, alloc, &site));
            assert!(rt; is_checked(&rt, alloc, &site) == Some(true));
        }
        Err(_) => assert!(rt; false),
    }
}

/// A file that grows while it is read: it never ends.
#[derive(Drop)]
struct Growing {
    /// The number of bytes that were read.
    read: usize,
}

impl Read for Growing {
    fn read(&mut self, buf: &mut [u8]) -> io::Result<usize> {
        buf.fill(b'a');
        self.read = self.read.saturating_add(buf.len());
        Ok(buf.len())
    }
}

// Of a file that had three million bytes, one more is read, which shows that it grew.
#[test]
fn file_that_grows(rt: HostRuntime) {
    let mut file = Growing { read: 0 };
    let mut body = Body::new(rt.alloc());
    let is_longer = body.read(&mut file, 3_000_000);
    assert!(rt; matches!(is_longer, Ok(true)));
    assert!(rt; file.read == 3_000_001);
    assert!(rt; body.as_slice().len() == 3_000_001);
}
