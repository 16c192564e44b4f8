//! The answer to a line, and its text.
ghost use Rattle.std.specs.Prelude.{Some};
ghost use Rattle.crawl_session.specs.Answers as spec;

use crate::request::RequestError;
use crate::stats::Stats;
use crawl_core::Reply;
use crawl_replay::ReplyText;
use std::fmt;

/// The answer to a line.
#[derive(Debug, Drop)]
pub enum Answer {
    /// The frontier's reply to its request.
    Replied(Reply),
    /// The numbers of the URLs of a queue, or of all queues.
    Counted(Stats),
    /// The line is no request to the frontier.
    Unasked(RequestError),
}

impl fmt::Display for Answer {
    ghost output = { λ answer. Some (spec.answer_text answer) };

    fn fmt<W: fmt::Write>(&self, f: &mut fmt::Formatter<W>) -> fmt::Result {
        match self {
            Answer::Replied(reply) => {
                let text = ReplyText(reply);
                write!(f, "{text}")
            }
            Answer::Counted(stats) => write!(f, "{stats}"),
            Answer::Unasked(why) => write!(f, "{why}"),
        }
    }
}

impl fmt::Display for RequestError {
    ghost output = { λ why. Some (spec.error_text why) };

    fn fmt<W: fmt::Write>(&self, f: &mut fmt::Formatter<W>) -> fmt::Result {
        match self {
            RequestError::LineTooLong => f.write_str("line too long"),
            RequestError::NotText => f.write_str("not UTF-8"),
            RequestError::BadLine => f.write_str("bad line"),
            RequestError::NotUrl => f.write_str("not a URL"),
            RequestError::NotHttp => f.write_str("not http or https"),
            RequestError::Filtered => f.write_str("filtered"),
            RequestError::Elsewhere { part, url } => write!(f, "elsewhere {part} {url}"),
            RequestError::OtherQueue => f.write_str("refused nosuch"),
            RequestError::Sync => f.write_str("synced"),
            RequestError::Identity(text) => write!(f, "identity {text}"),
            RequestError::NoMemory => f.write_str("out of memory"),
        }
    }
}
