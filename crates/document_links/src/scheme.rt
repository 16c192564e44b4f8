//! The schemes of links, and why a link is invalid.
ghost use Rattle.std.specs.Prelude.{◌≡◌, ◌≤◌, length, option_map};
ghost use Rattle.url.specs.Parser.{split_scheme};
ghost use Rattle.url.specs.Scheme as spec;
ghost use Rattle.document_links.specs.Schemes.{invalid_kind, is_known, is_local, is_web, kind_by, lacks_slashes, names_host, scheme_of};

use crate::name_list::is_among;

/// The known schemes of links other than `http`, `https` and `file`: registered ones, and others in use. The most frequent ones
/// come first, because the list is searched from its start.
const KNOWN_SCHEMES: &str = "\
    mailto javascript tel data ftp news irc aaa aaas about acap acct afp aim android-app apt bitcoin bitcoincash blob bzr callto \
    cap chrome chrome-extension cid coap coap+tcp coap+ws coaps coaps+tcp coaps+ws content crid cvs dav dict dns doi dtn ed2k \
    ethereum facetime facetime-audio fax feed filesystem fish ftps geo ghelp git go gopher gtalk h323 hcp help hg iax icap im \
    imap info intent ios-app ipfs ipn ipns ipp ipps irc6 ircs iris iris.beep iris.lwz iris.xpc iris.xpcs itms itms-apps jabber \
    jar keyparc lastfm ldap ldapi ldaps lightning lp magnet mailserver man maps market matrix message mid mms modem moz-extension \
    ms-access ms-excel ms-help ms-its ms-powerpoint ms-project ms-publisher ms-settings ms-visio ms-windows-store ms-word msrp \
    msrps msteams mt mtqp mumble mupdate nfs ni nih nntp notes onenote opaquelocktoken openpgp4fpr payto pkcs11 platform pop pops \
    pres prospero reload resource rmi rsync rtmp rtmps rtsp rtsps rtspu service session sftp sgn shttp sieve signal sip sips \
    skype slack smb sms smsto snews snmp soap.beep soap.beeps spotify ssh steam stun stuns svn svn+ssh tag teams teamspeak telnet \
    tftp tg things thismessage tip tn3270 turn turns tv udp unreal urn vbscript vemmi ventrilo viber view-source vnc vscode wais \
    webcal webcals whatsapp ws wss wtai wyciwyg xcon xcon-userid xmlrpc.beep xmlrpc.beeps xmpp xri ymsgr z39.50r z39.50s zoommtg \
    zoomus";

/// Why a link is invalid.
#[derive(Clone, Copy, Debug, PartialEq, Eq)]
pub enum InvalidKind {
    /// It has the scheme `http` or `https` or none. The URL parser fails, or the two slashes after the scheme are missing.
    NotUrl,
    /// Its scheme is not a known one.
    UnknownScheme,
    /// It names a file on the reader's computer: its scheme is `file`, or a single letter as in `C:\x`.
    LocalFile,
}

/// Why a link with this text is invalid, if it has no canonical URL or lacks its slashes. `None` if it has another known scheme.
pub(crate) fn invalid_kind(text: &[u8]) -> Option<InvalidKind>
    ensures { result ≡ invalid_kind text.now }
{
    match scheme_of(text) {
        Some(scheme) => kind_by(scheme),
        None => Some(InvalidKind::NotUrl),
    }
}

/// Why a link with this scheme is invalid.
fn kind_by(scheme: &[u8]) -> Option<InvalidKind>
    ensures { result ≡ kind_by scheme.now }
{
    if is_http(scheme) {
        Some(InvalidKind::NotUrl)
    } else if is_local(scheme) {
        Some(InvalidKind::LocalFile)
    } else if is_known(scheme) {
        None
    } else {
        Some(InvalidKind::UnknownScheme)
    }
}

/// Whether a link with this scheme, or with none, may lead to a page.
pub(crate) fn is_web(scheme: Option<&[u8]>) -> bool {
    match scheme {
        Some(scheme) => is_http(scheme),
        None => true,
    }
}

/// Whether the scheme is `http` or `https`. Case does not matter here and below.
fn is_http(scheme: &[u8]) -> bool
    ensures { result ≡ is_web scheme.now }
{
    scheme.eq_ignore_ascii_case(b"http") || scheme.eq_ignore_ascii_case(b"https")
}

/// Whether a link with this scheme names a file on the reader's computer.
fn is_local(scheme: &[u8]) -> bool
    ensures { result ≡ is_local scheme.now }
{
    scheme.len() == 1 || scheme.eq_ignore_ascii_case(b"file")
}

/// Whether the scheme is one of `KNOWN_SCHEMES`.
fn is_known(scheme: &[u8]) -> bool
    ensures { result ≡ is_known scheme.now }
{
    is_among(scheme, KNOWN_SCHEMES)
}

/// Whether a text has the scheme `http` or `https` without two slashes after it, as in `http:/x`. Browsers follow such a link, but the
/// URL Standard calls the missing slashes an error.
pub(crate) fn lacks_slashes(text: &[u8]) -> bool
    ensures { result ≡ lacks_slashes text.now }
{
    match split_scheme(text) {
        Some((scheme, following)) => is_http(scheme) && !names_host(following),
        None => false,
    }
}

/// The scheme that a text begins with, without its colon.
pub(crate) fn scheme_of(text: &[u8]) -> Option<&[u8]>
    ensures { option_map (λ scheme. scheme.now) result ≡ scheme_of text.now }
{
    match split_scheme(text) {
        Some((scheme, _)) => Some(scheme),
        None => None,
    }
}

/// The scheme that a text begins with, and the text after its colon.
#[tactic(auto, unfolding(url::specs::Parser::split_scheme))]
fn split_scheme(text: &[u8]) -> Option<(&[u8], &[u8])>
    ensures { option_map (λ parts. (parts.0.now, parts.1.now)) result ≡ split_scheme text.now }
{
    let len = scheme_len(text);
    match text.split_at(len) {
        (scheme, [b':', following @ ..]) if len > 0 => Some((scheme, following)),
        _ => None,
    }
}

/// The number of bytes at the start of a text that make a scheme, if a colon comes next.
fn scheme_len(text: &[u8]) -> usize
    ensures value { result ≡ spec.scheme_len text.now }
    ensures within { result ≤ length text.now }
{
    if !text.first().is_some_and(|byte| byte.is_ascii_alphabetic()) {
        return 0;
    }
    text.iter()
        .take_while(|&&byte| is_scheme_byte(byte))
        .count()
}

/// Whether the byte may be in a scheme after its first letter.
fn is_scheme_byte(byte: u8) -> bool
    ensures { result ≡ spec.is_scheme_byte byte }
{
    byte.is_ascii_alphanumeric() || matches!(byte, b'+' | b'-' | b'.')
}

/// Whether a text without a scheme begins with a host, that is, with two slashes of either kind.
pub(crate) fn names_host(text: &[u8]) -> bool
    ensures { result ≡ names_host text.now }
{
    matches!(text, [b'/' | b'\\', b'/' | b'\\', ..])
}
