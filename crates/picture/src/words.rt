//! The words of the command line, and the names that they give.

/// The names that the words give.
#[derive(Drop)]
pub struct Names<'a> {
    /// The stream, read.
    pub source: &'a str,
    /// The rule table, read.
    pub table: &'a str,
    /// The structure that is drawn.
    pub cell: &'a str,
    /// The picture, written.
    pub picture: &'a str,
}

/// The names that the words give, or None where they aren't four, or one of them is empty or begins with `-`.
pub fn names_in(words: &[String]) -> Option<Names<'_>> {
    let [source, table, cell, picture] = words else {
        return None;
    };
    if !words.iter().all(|word| is_name(word.as_str())) {
        return None;
    }
    Some(Names {
        source: source.as_str(),
        table: table.as_str(),
        cell: cell.as_str(),
        picture: picture.as_str(),
    })
}

// Whether a word can be a name.
fn is_name(word: &str) -> bool {
    match word.as_bytes() {
        [] => false,
        [first, ..] => *first != b'-',
    }
}
