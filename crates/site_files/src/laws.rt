//! What the definitions in `specs/` say of some requests.
ghost use Rattle.site_files.specs.Vectors.{Folders, Homes, Kinds, Links, Requests, Responses, Rules, Starts};

/// The paths that are looked up for requests.
pub fn requests()
    ensures { Requests }
{}

/// What is returned for the URLs of a folder.
pub fn responses()
    ensures { Responses }
{}

/// What is returned by the rules of a host, and the own URLs of files.
pub fn rules()
    ensures { Rules }
{}

/// The kinds of files by their names.
pub fn kinds()
    ensures { Kinds }
{}

/// Which of some files a check starts at, by their own URLs.
pub fn starts()
    ensures { Starts }
{}

/// The pages of folders by index files that the rules do not have.
pub fn homes()
    ensures { Homes }
{}

/// Which URLs are those of folders.
pub fn folders()
    ensures { Folders }
{}

/// The first symbolic links on the paths of URLs that are not followed.
pub fn links()
    ensures { Links }
{}
