//! Why a text has no canonical URL.
use std::alloc::{AllocError, AllocFailed};
use std::error::Error;
use std::fmt;
use url::ParseError;

/// Why a text has no canonical URL. The variants are in the order of the checks.
#[derive(Clone, Copy, Debug, PartialEq, Eq, Hash)]
pub enum KeyError {
    /// The URL Standard's parser fails on the text, as it does on `http://[`.
    NotUrl,
    /// The text is a URL whose scheme is neither `http` nor `https`, such as `mailto:x`.
    NotHttp,
    /// An allocation failed, or the URL is longer than the parser can hold (4 GB).
    NoMemory,
}

impl fmt::Display for KeyError {
    ghost use Rattle.std.specs.Prelude.{Some};
    ghost use Rattle.crawl_keys.specs.CanonicalText.{message};

    ghost output = { λ e. Some (message e) };

    fn fmt<W: fmt::Write>(&self, f: &mut fmt::Formatter<W>) -> fmt::Result {
        f.write_str(match self {
            KeyError::NotUrl => "not a URL",
            KeyError::NotHttp => "not http or https",
            KeyError::NoMemory => "out of memory",
        })
    }
}

impl Error for KeyError {}

impl From<ParseError> for KeyError {
    ghost use Rattle.std.specs.Prelude.{◌≡◌};
    ghost use Rattle.crawl_keys.specs.CanonicalText.{key_error};

    ghost from_gives = { λ p e. e ≡ key_error p };

    fn from(error: ParseError) -> KeyError {
        match error {
            ParseError::OutOfMemory | ParseError::Overflow => KeyError::NoMemory,
            _ => KeyError::NotUrl,
        }
    }
}

impl From<AllocError> for KeyError {
    ghost use Rattle.std.specs.Prelude.{◌≡◌};
    ghost use Rattle.crawl_keys.specs.declared.error.KeyError.TheVariants.{NoMemory};

    ghost from_gives = { λ _ e. e ≡ NoMemory };

    fn from(_: AllocError) -> KeyError {
        KeyError::NoMemory
    }
}

impl<T: Drop> From<AllocFailed<T>> for KeyError {
    ghost use Rattle.std.specs.Prelude.{◌≡◌};
    ghost use Rattle.crawl_keys.specs.declared.error.KeyError.TheVariants.{NoMemory};

    ghost from_gives = { λ _ e. e ≡ NoMemory };

    fn from(_: AllocFailed<T>) -> KeyError {
        KeyError::NoMemory
    }
}
