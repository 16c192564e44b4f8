//! Reads the files of a command.
ghost use Rattle.std.specs.Prelude.{◌≡◌, ◌≤◌, ◌⊎◌, ◌&&◌, ◌||◌, string_bytes, vec_len, false, IfOk, IfErr, IfSome, IsSome};
ghost use Rattle.mercator.specs.Limits.{most_input_bytes};
ghost use Rattle.mercator.specs.Plans.{is_bad_suffix, is_input, known_bytes, known_seeds, lists_input, plan_of};
ghost use Rattle.mercator.specs.Outputs.{AreFiles, FailsCrawl};
ghost use Rattle.mercator.specs.declared.commands.error.CommandError.TheVariants as wrong;

use crate::commands::error::CommandError;
use crate::commands::input::{Unread, input_limits, read_input};
use crate::commands::planned::CrawlPlan;
use std::alloc::Global;
use std::fs::{self, Files};
use std::io::Read;

/// Reads the two files of a crawl: the saved web, then the file of seeds.
///
/// # Errors
/// `CannotRead`, `CannotReadSeeds`, `NoMemory`.
pub(in crate::commands) fn read_files<R: Files, I: Read>(
    rt: &R,
    alloc: Global,
    crawl: &CrawlPlan<'_>,
    input: &mut I,
) -> Result<(Vec<u8>, Vec<u8>), CommandError>
    requires one_input { (is_input (string_bytes crawl.now.file.now) && lists_input crawl.now.options.now.listed) ≡ false }
    ensures files { IfOk result (λ files. AreFiles (plan_of crawl.now) (I.remaining input.old) files.0.items files.1.items) }
    ensures error { is_bad_suffix crawl.now.options.now.within ≡ false → IfErr result (FailsCrawl (plan_of crawl.now) (I.remaining input.old)) }
    ensures unread { (is_input (string_bytes crawl.now.file.now) || lists_input crawl.now.options.now.listed) ≡ false → input.new ≡ input.old }
{
    let bytes = read_file(rt, alloc, crawl.file.as_str(), input)?;
    let list = read_list(rt, alloc, &crawl.options.listed, input)?;
    Ok((bytes, list))
}

/// Reads the file of seeds. Without one, returns no bytes.
fn read_list<R: Files, I: Read>(
    rt: &R,
    alloc: Global,
    listed: &Option<String>,
    input: &mut I,
) -> Result<Vec<u8>, CommandError>
    ensures whole { IfOk result (λ bytes. IfSome (known_seeds listed.now (I.remaining input.old)) (λ known. bytes.items ≡ known)) }
    ensures within { IfOk result (λ bytes. vec_len bytes ≤ most_input_bytes) }
    ensures error { IfErr result (λ error. (error ≡ wrong.NoMemory) ⊎ ((error ≡ wrong.CannotReadSeeds) × IsSome listed.now)) }
    ensures unread { lists_input listed.now ≡ false → input.new ≡ input.old }
{
    let Some(file) = listed else {
        return Ok(Vec::new(alloc));
    };
    match read_file(rt, alloc, file, input) {
        Ok(bytes) => Ok(bytes),
        Err(why) => Err(CommandError::of_unread_file(why, CommandError::CannotReadSeeds)),
    }
}

/// Reads the whole FILE: the input if it is `-`, else the file with this name.
///
/// # Errors
/// Those of [`read_input`] and [`read_named`].
pub fn read_file<R: Files, I: Read>(
    rt: &R,
    alloc: Global,
    file: &str,
    input: &mut I,
) -> Result<Vec<u8>, Unread>
    ensures whole { IfOk result (λ bytes. IfSome (known_bytes file.now (I.remaining input.old)) (λ known. bytes.items ≡ known)) }
    ensures within { IfOk result (λ bytes. vec_len bytes ≤ most_input_bytes) }
    ensures unread { is_input file.now ≡ false → input.new ≡ input.old }
{
    if file == "-" {
        return read_input(alloc, input, input_limits());
    }
    read_named(rt, alloc, file)
}

/// Reads the whole file with this name.
///
/// # Errors
/// Those of [`read_input`]; `Failed` also if the file does not exist or cannot be opened.
pub fn read_named<R: Files>(rt: &R, alloc: Global, file: &str) -> Result<Vec<u8>, Unread>
    ensures { IfOk result (λ bytes. vec_len bytes ≤ most_input_bytes) }
{
    let Ok(mut opened) = fs::open(rt, file) else {
        return Err(Unread::Failed);
    };
    read_input(alloc, &mut opened, input_limits())
}
