//! The lines of replies.
ghost use Rattle.std.specs.Prelude.{◌≡◌, Some, IfOk, string_bytes};
ghost use Rattle.crawl_replay.specs.Replies.{refusal_text, reply_text, reply_lines};

use crawl_core::{NoMemory, Refusal, Reply};
use std::alloc::Global;
use std::fmt;

/// Displays a reply as a line of a replay, without the LF.
#[derive(Clone, Copy)]
pub struct ReplyText<'a>(pub &'a Reply);

impl fmt::Display for ReplyText<'_> {
    ghost output = { λ reply. Some (reply_text reply.0.now) };

    fn fmt<W: fmt::Write>(&self, f: &mut fmt::Formatter<W>) -> fmt::Result {
        match self.0 {
            Reply::Word {
                count,
                closed: false,
            } => write!(f, "word {count} open"),
            Reply::Word {
                count,
                closed: true,
            } => write!(f, "word {count} closed"),
            Reply::Entered(count) => write!(f, "entered {count}"),
            Reply::Lost => f.write_str("lost"),
            Reply::Accepted { queue, number } => write!(f, "accepted {queue} {number}"),
            Reply::Seen => f.write_str("seen"),
            Reply::Count(count) => write!(f, "count {count}"),
            Reply::Taken(url) => write!(f, "taken {url}"),
            Reply::Empty => f.write_str("empty"),
            Reply::Closed => f.write_str("closed"),
            Reply::Pending(count) => write!(f, "pending {count}"),
            Reply::Refused(why) => {
                let why = refusal_text(*why);
                write!(f, "refused {why}")
            }
        }
    }
}

/// Returns the reason as it is printed after `refused`.
fn refusal_text(why: Refusal) -> &'static str
    ensures { result.now ≡ refusal_text why }
{
    match why {
        Refusal::Closed => "closed",
        Refusal::Full => "full",
        Refusal::Nothing => "nothing",
        Refusal::Busy => "busy",
        Refusal::NoSuch => "nosuch",
    }
}

/// Returns the replies in order, one line each.
pub fn reply_lines(alloc: Global, replies: &[Reply]) -> Result<String, NoMemory>
    ensures { IfOk result (λ text. string_bytes text ≡ reply_lines replies.now) }
{
    let mut text = String::new(alloc);
    for reply in replies {
        let line = ReplyText(reply);
        writeln!(text, "{line}")?;
    }
    Ok(text)
}
