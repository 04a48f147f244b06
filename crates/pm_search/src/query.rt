//! What is searched in an image, and the answer.

/// What is searched in an image.
#[derive(Clone, Copy)]
pub enum Query<'a> {
    /// The files whose names match this pattern. The rule is that of `files list --matching`.
    Names(&'a str),
    /// The lines of text files that contain these bytes. Case matters. Each line contains the empty text.
    Text(&'a [u8]),
    /// One line that describes the image.
    Info,
}

/// How a search in an image ended.
#[derive(Clone, Copy, Debug, PartialEq, Eq)]
pub enum SearchEnding {
    /// The image has one volume, and the answer has at least one line.
    Found,
    /// The image has one volume, and nothing was found. The answer has no line.
    Nothing,
    /// The image has no volume, or more than one format fits. The answer has one line that says which.
    Refused,
}

/// The answer for one image.
#[derive(Drop)]
pub struct Searched {
    /// The lines of the answer. Each ends with byte 10.
    pub text: Vec<u8>,
    /// How the search ended.
    pub ending: SearchEnding,
}
