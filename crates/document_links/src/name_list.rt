//! Names in a text, separated by spaces.
ghost use Rattle.std.specs.Prelude.{◌≡◌};
ghost use Rattle.document_links.specs.Schemes.{is_among};

/// Whether the name is one of `names`, which are separated by spaces. Case does not matter.
pub(crate) fn is_among(name: &[u8], names: &str) -> bool
    ensures { result ≡ is_among name.now names.now }
{
    names
        .split(' ')
        .any(|known| name.eq_ignore_ascii_case(known.as_bytes()))
}
