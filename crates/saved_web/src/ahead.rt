//! The links of a saved web's pages, which threads resolve before the pages are fetched.
ghost use Rattle.std.specs.Prelude.{◌≡◌, All, IfOk, IfSome};
ghost use Rattle.saved_web.specs.Ahead.{IsChunk};
ghost use Rattle.saved_web.specs.KnownPages.{known_page};

mod chunk;

use crate::web_pages::WebPages;
use chunk::Chunk;
use crawl_keys::CanonUrl;
use crawl_pages::Page;
use std::alloc::{AllocError, Global};
use std::marker::Model;
use std::thread;
use std::thread::Threads;

/// The links of a saved web with fewer bytes than this are not resolved ahead.
const LEAST: usize = 1 << 19;

/// The number of threads that resolve links, each for one chunk.
const CHUNKS: usize = 4;

/// The number of blocks of pages. Each chunk gets every fourth block, because pages that take long are often near each other.
const BLOCKS: usize = 64;

/// The pages of a saved web, and the resolved links of most of them, or of none.
#[derive(Drop)]
pub struct Ahead<'w, 'a> {
    web: &'w WebPages<'a>,
    /// The index of the first page of each block, and the number of pages.
    blocks: Vec<usize>,
    chunks: Vec<Chunk>,
}

// Contracts see the pages.
impl<'w, 'a> Model for Ahead<'w, 'a> {
    ghost use Rattle.std.specs.Prelude.{List, All};
    ghost use Rattle.std.specs.Coded.{coded_list};
    ghost use Rattle.saved_web.specs.Ahead.{IsChunk};
    ghost use Rattle.saved_pages.specs.PageLists.{PageRead, page_read_code};

    ghost Value = { List PageRead };

    ghost coded = { coded_list page_read_code };

    ghost view = { λ ahead. ahead.web.now };

    ghost invariant = { λ ahead. All (IsChunk ahead.web.now) ahead.chunks.items };
}

impl<'w, 'a> Ahead<'w, 'a> {
    /// Resolves the links of all pages in threads, if they all have the same host, whose pages one worker fetches. Resolves none if
    /// there are several hosts, if the saved web is small, or if `in_threads` is `false`.
    pub fn new<R: Threads + Sync>(
        rt: &R,
        alloc: Global,
        web: &'w WebPages<'a>,
        in_threads: bool,
    ) -> Ahead<'w, 'a>
        ensures { result ≡ web.now }
    {
        if !in_threads || web.bytes() < LEAST || !web.has_one_host() {
            return Ahead::of_none(alloc, web);
        }
        let Ok(blocks) = blocks_of(alloc, web) else {
            return Ahead::of_none(alloc, web);
        };
        match chunks_of(rt, alloc, web, &blocks) {
            Ok(chunks) => Ahead {
                web,
                blocks,
                chunks,
            },
            Err(_) => Ahead::of_none(alloc, web),
        }
    }

    /// Makes a value without resolved links.
    fn of_none(alloc: Global, web: &'w WebPages<'a>) -> Ahead<'w, 'a>
        ensures { result ≡ web.now }
    {
        Ahead {
            web,
            blocks: Vec::new(alloc),
            chunks: Vec::new(alloc),
        }
    }

    /// Returns the page at the URL. `None` if its links were not resolved, or if memory runs out.
    pub fn page(&self, alloc: Global, url: &CanonUrl) -> Option<Page>
        ensures { IfSome result (λ page. page ≡ known_page self.now url.now) }
    {
        if self.chunks.is_empty() {
            return None;
        }
        let index = self.web.find(url)?;
        let chunk = self.chunks.get(chunk_of(&self.blocks, index))?;
        chunk.page(alloc, index)
    }
}

/// Returns the index of the first page of each block, and then the number of pages. All blocks have about the same number of bytes.
fn blocks_of(alloc: Global, web: &WebPages<'_>) -> Result<Vec<usize>, AllocError> {
    let bytes = web.bytes();
    let mut blocks = Vec::with_capacity(alloc, BLOCKS + 1)?;
    for block in 0..=BLOCKS {
        blocks.push(web.index_after(bytes.saturating_mul(block) / BLOCKS))?;
    }
    Ok(blocks)
}

/// Returns the number of the chunk with the page at the index. `blocks` are the first pages of the blocks.
fn chunk_of(blocks: &[usize], index: usize) -> usize {
    let begun = blocks.partition_point(|first| *first <= index);
    begun.saturating_sub(1) % CHUNKS
}

/// Resolves the links of all pages, chunk by chunk.
fn chunks_of<R: Threads + Sync>(
    rt: &R,
    alloc: Global,
    web: &WebPages<'_>,
    blocks: &[usize],
) -> Result<Vec<Chunk>, AllocError>
    ensures { IfOk result (λ chunks. All (IsChunk web.now) chunks.items) }
{
    thread::map_indices(
        rt,
        alloc,
        CHUNKS,
        &|number: usize| { Chunk::new(alloc, web, blocks, number) },
    )
}
