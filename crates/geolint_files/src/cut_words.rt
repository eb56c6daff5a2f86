//! The words by which a file is checked in parts.

use clap::ArgMatches;
use file_parts::Share;

/// What is asked for of parts.
#[derive(Clone, Copy)]
pub enum Cut {
    /// One part is checked.
    Part(Share),
    /// The lines of all parts are joined.
    Join,
}

/// What is asked for of parts, or a word that names none.
pub fn cut_in<'a>(given: &ArgMatches<'a>) -> Result<Option<Cut>, &'a str> {
    match given.get_str("part") {
        Some(word) => match share_in(word) {
            Some(share) => Ok(Some(Cut::Part(share))),
            None => Err(word),
        },
        None if given.get_flag("join") => Ok(Some(Cut::Join)),
        None => Ok(None),
    }
}

/// The part that a word names, as 3/8.
fn share_in(word: &str) -> Option<Share> {
    let (number, parts) = word.split_once("/")?;
    Share::new(number.parse().ok()?, parts.parse().ok()?)
}

/// Why what is named is not checked in parts.
pub fn wrong_cut(
    given: &ArgMatches<'_>,
    paths: &[Vec<u8>],
    has_list: bool,
) -> Option<&'static str> {
    if given.get_str("part").is_none() && !given.get_flag("join") {
        return None;
    }
    if has_list {
        return Some("'--part <I/N>' and '--join' take no '--files-from <FILE>'");
    }
    if given.get_flag("join") {
        return None;
    }
    match paths {
        [path] if path.as_slice() == b"-".as_slice() => Some(
            "'--part <I/N>' needs a file, since it starts reading in the middle: write standard input to a file first",
        ),
        [_] => None,
        _ => Some("'--part <I/N>' takes one file"),
    }
}
