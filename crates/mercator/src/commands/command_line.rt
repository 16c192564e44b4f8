//! The commands and options as `clap` knows them, and their help.
use crate::commands::arguments::{
    Flag, Valued, command_with, flag_of, option, push, push_flags, push_options, word, workers,
};
use crate::commands::check_arguments::check_command;
use crate::commands::folder_arguments::site_command;
use crate::commands::report_arguments::SECTION_FLAGS;
use clap::builder::ValueParser;
use clap::{Arg, ArgAction, Command};
use crawl_limits::PENDING_LIMIT;
use std::alloc::{AllocError, Global};

/// The name of the program, as usage lines print it.
pub const NAME: &str = "mercator";

/// The version, and the logic of the Rattle toolchain that it is proved with, as `rt version` prints it.
const VERSION: &str = "0.2 (logic dac8208d650f15bf)";

const STATUSES: &str = "\
Exit status: 0 success, 1 error, 2 incomplete crawl, 3 bad command line,
4 a link is broken or invalid or leaves the site, 5 log in use.
Example: mercator check examples/site";

/// The largest value of `--wait`: a day.
const WAIT_LIMIT: u64 = 86_400;

const CRAWL_HELP: &str = "\
A saved web is a text file of pages and their links, such as 'mercator site' prints. The
report has one line for each URL, sorted by URL, and a line of totals. It is the same for
any number of workers.
Example: mercator crawl --workers 8 --within site.test site.web http://site.test/";

const KEY_HELP: &str = "\
All URLs with the same host key belong to the same queue.
Example: mercator key http://A.test:80/x/../y --workers 2";

const REPLAY_HELP: &str = "\
The first line of a script is 'workers N max M'; each line after it is one event.
Example: mercator replay two_urls.script";

const SERVE_HELP: &str = "\
Each request is one line, and is answered immediately by one line:
  offer URL       accepted Q NUMBER | seen | filtered | not a URL | not http or https |
                  refused closed | refused full
  link BASE TEXT  as for offer; TEXT is a link on the page BASE
  next Q          taken URL | pending COUNT | closed | refused busy | refused nosuch
  again Q         taken URL | refused nothing | refused nosuch
  later Q         count COUNT | refused nothing | refused nosuch
  done Q          count COUNT | refused nothing | refused nosuch
  endseeds        count COUNT | refused nothing
  stats           stats accepted A done D in-progress P waiting W put-back B seen S
  stats Q         as for stats, with the numbers of queue Q | refused nosuch
Only with --part:
  sync            synced
  identity        identity TEXT
  offer, link     also: elsewhere P URL
Any other line is answered 'bad line', 'line too long' or 'not UTF-8'.
Example: mercator serve --workers 8 --log crawl.log";

/// The whole command line.
pub fn command_line<'a>(alloc: Global) -> Result<Command<'a>, AllocError> {
    let mut commands = Vec::new(alloc);
    push_commands(alloc, &mut commands)?;
    Command::new(alloc, NAME)
        .about("A link checker for folders of HTML pages, and a URL frontier for crawlers")
        .version(VERSION)
        .after_help(STATUSES)
        .subcommand_required(true)
        .subcommands(commands)
}

/// Appends the commands, in the order of the help.
fn push_commands<'a>(alloc: Global, commands: &mut Vec<Command<'a>>) -> Result<(), AllocError> {
    push_command(commands, check_command(alloc))?;
    push_command(commands, site_command(alloc))?;
    push_command(commands, crawl_command(alloc))?;
    push_command(commands, serve_command(alloc))?;
    push_command(commands, key_command(alloc))?;
    push_command(commands, replay_command(alloc))
}

/// Appends a command, or returns the error that occurred when it was made.
fn push_command<'a>(
    commands: &mut Vec<Command<'a>>,
    made: Result<Command<'a>, AllocError>,
) -> Result<(), AllocError> {
    match made {
        Ok(command) => {
            commands.push(command)?;
            Ok(())
        }
        Err(refused) => Err(refused),
    }
}

/// `crawl`: prints the report of a crawl of a saved web.
fn crawl_command<'a>(alloc: Global) -> Result<Command<'a>, AllocError> {
    let mut args = Vec::new(alloc);
    push_crawl_args(alloc, &mut args)?;
    let about = "Crawl a saved web and print the report";
    command_with(alloc, "crawl", about, CRAWL_HELP, args)
}

/// Appends the options and arguments of `crawl`.
fn push_crawl_args<'a>(alloc: Global, args: &mut Vec<Arg<'a>>) -> Result<(), AllocError> {
    push_numbers(alloc, args)?;
    push_report_options(alloc, args)?;
    push_options(alloc, args, None, CRAWL_OPTIONS)?;
    push(args, file(alloc, "Saved web to crawl; - is standard input"))?;
    push(args, seeds(alloc)?)
}

/// Appends the options for what `crawl` prints.
fn push_report_options<'a>(alloc: Global, args: &mut Vec<Arg<'a>>) -> Result<(), AllocError> {
    push_flags(alloc, args, None, QUEUE_FLAGS)?;
    push_flags(alloc, args, None, SECTION_FLAGS)?;
    push_flags(alloc, args, None, PRINTING_FLAGS)
}

/// The number of workers of a frontier, and its limit of pending URLs.
fn push_numbers<'a>(alloc: Global, args: &mut Vec<Arg<'a>>) -> Result<(), AllocError> {
    let help = "Number of workers, 1 to 512, each with its own queue";
    push(args, workers(alloc, "4", help))?;
    push(args, max_pending(alloc))
}

/// The option that shows how the work was shared.
const QUEUE_FLAGS: &[Flag] = &[Flag {
    name: "queues",
    help: "Also print the number of URLs in each queue",
}];

/// The format of a report, and what else is printed.
const PRINTING_FLAGS: &[Flag] = &[
    Flag {
        name: "json",
        help: "Print the report as JSON, one object per line",
    },
    Flag {
        name: "explain",
        help: "If the crawl is incomplete, print the first affected URL and the losses by cause",
    },
    Flag {
        name: "progress",
        help: "Print the number of fetched pages on standard error, at most once a second",
    },
];

/// The options of a crawl that have a value, other than the numbers.
const CRAWL_OPTIONS: &[Valued] = &[
    Valued {
        name: "within",
        value: "SUFFIX",
        help: "Crawl only hosts equal to SUFFIX or subdomains of it",
    },
    Valued {
        name: "seeds",
        value: "LIST",
        help: "Read seeds from the file LIST, one per line, before any SEED; - is standard input",
    },
];

/// `key`: prints the canonical form of a URL, its host key and the number of its queue.
fn key_command<'a>(alloc: Global) -> Result<Command<'a>, AllocError> {
    let mut args = Vec::new(alloc);
    push_key_args(alloc, &mut args)?;
    let about = "Print a URL's canonical form, host key and queue";
    command_with(alloc, "key", about, KEY_HELP, args)
}

/// Appends the argument and the option of `key`.
fn push_key_args<'a>(alloc: Global, args: &mut Vec<Arg<'a>>) -> Result<(), AllocError> {
    let url = word(alloc, "url", "URL", "URL to print, http or https");
    push(args, url.required(true))?;
    let help = "Number of queues, 1 to 512";
    push(args, workers(alloc, "4", help))
}

/// `replay`: prints the replies to a script.
fn replay_command<'a>(alloc: Global) -> Result<Command<'a>, AllocError> {
    Command::new(alloc, "replay")
        .about("Run a script of frontier steps and print the replies")
        .after_help(REPLAY_HELP)
        .arg(file(alloc, "Script to run; - is standard input"))
}

/// `serve`: answers the requests of the input.
fn serve_command<'a>(alloc: Global) -> Result<Command<'a>, AllocError> {
    let mut args = Vec::new(alloc);
    push_serve_args(alloc, &mut args)?;
    let about = "Run the frontier as a process that answers requests on standard input";
    command_with(alloc, "serve", about, SERVE_HELP, args)
}

/// Appends the options of `serve`, which has no other arguments.
fn push_serve_args<'a>(alloc: Global, args: &mut Vec<Arg<'a>>) -> Result<(), AllocError> {
    push_numbers(alloc, args)?;
    push_options(alloc, args, None, SERVE_OPTIONS)?;
    push(args, sync(alloc)?)?;
    push(args, wait(alloc)?)?;
    push(args, compact(alloc)?)?;
    push(args, list(alloc)?)?;
    push(args, list_json(alloc)?)
}

/// The options of a session that have a value, other than the numbers, `--wait`, `--compact` and `--list`.
const SERVE_OPTIONS: &[Valued] = &[
    Valued {
        name: "within",
        value: "SUFFIX",
        help: "Accept only hosts equal to SUFFIX or subdomains of it",
    },
    Valued {
        name: "part",
        value: "I/K",
        help: "Run part I, from 0, of K frontiers that share a crawl",
    },
    Valued {
        name: "log",
        value: "FILE",
        help: "Append each request to FILE before it is answered; resume from FILE if it exists",
    },
];

/// The option `--sync`, which requires `--log`.
fn sync<'a>(alloc: Global) -> Result<Arg<'a>, AllocError> {
    flag_of(alloc, "sync", "Sync the log to disk before each answer").requires_arg("log")
}

/// The option `--wait`, in seconds: 0 to 86,400, by default 0. It requires `--log`.
fn wait<'a>(alloc: Global) -> Result<Arg<'a>, AllocError> {
    option(
        alloc,
        "wait",
        "SECONDS",
        "Wait at most SECONDS for another program to stop using FILE, 0 to 86400",
    )
    .value_parser(ValueParser::unsigned(0, WAIT_LIMIT))
    .default_value("0")
    .requires_arg("log")
}

/// The option `--compact`, with the name of the new file. It requires `--log`.
fn compact<'a>(alloc: Global) -> Result<Arg<'a>, AllocError> {
    option(
        alloc,
        "compact",
        "NEW",
        "Write a compacted copy of the log to the new file NEW, and exit",
    )
    .requires_arg("log")
}

/// What `--list` can list.
const KINDS: &[&str] = &["pending", "in-progress", "done", "stats"];

/// The option `--list`. It requires `--log`. The settings are those of the log, so no option of a session can be given.
fn list<'a>(alloc: Global) -> Result<Arg<'a>, AllocError> {
    option(
        alloc,
        "list",
        "KIND",
        "Print the URLs of FILE that are pending, in-progress or done, or their numbers (stats), and exit",
    )
    .value_parser(ValueParser::Names(KINDS))
    .hide_possible_values(true)
    .requires_arg("log")?
    .conflicts_with("workers")?
    .conflicts_with("max-pending")?
    .conflicts_with("within")?
    .conflicts_with("part")?
    .conflicts_with("sync")?
    .conflicts_with("wait")?
    .conflicts_with("compact")
}

/// The option `--json` of `serve`, which requires `--list`.
fn list_json<'a>(alloc: Global) -> Result<Arg<'a>, AllocError> {
    flag_of(alloc, "json", "Print the list as JSON, one object per line").requires_arg("list")
}

/// The option `--max-pending`: 1 to 2^40 URLs, by default 2^20.
fn max_pending<'a>(alloc: Global) -> Arg<'a> {
    option(
        alloc,
        "max-pending",
        "M",
        "Maximum number of URLs waiting or in progress, 1 to 1099511627776",
    )
    .value_parser(ValueParser::unsigned(1, PENDING_LIMIT))
    .default_value("1048576")
}

/// The argument FILE, which is required.
fn file<'a>(alloc: Global, help: &'a str) -> Arg<'a> {
    word(alloc, "file", "FILE", help).required(true)
}

/// The arguments SEED. At least one is required if `--seeds` is not given.
fn seeds<'a>(alloc: Global) -> Result<Arg<'a>, AllocError> {
    word(
        alloc,
        "seed",
        "SEED",
        "URL to start from; required unless --seeds is given",
    )
    .num_args(1..)
    .action(ArgAction::Append)
    .required_unless_present("seeds")
}
