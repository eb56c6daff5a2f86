//! The names in a list of files.
use crate::sequences::holds;
use geolint_report::name_lists::{LONGEST_NAME, Listed, NameEnd, Names};
use std::io;

/// The names in a list, each with a `|` after it, and `0` before that where NUL is in the name.
fn names_in(rt: &HostRuntime, list: &[u8], name_end: NameEnd) -> io::Result<Vec<u8>> {
    let mut names = Names::new(list, name_end);
    let mut name = Vec::new(rt.alloc());
    let mut found = Vec::new(rt.alloc());
    for _ in 0..100 {
        match names.next_into(&mut name)? {
            Listed::End => break,
            Listed::Name => found.extend_from_slice(name.as_slice())?,
            Listed::NameWithNul => {
                found.extend_from_slice(name.as_slice())?;
                found.push(b'0')?;
            }
        }
        found.push(b'|')?;
    }
    Ok(found)
}

/// A list, what ends a name in it, the names as `names_in` gives them, and what it is.
static LISTS: [(&[u8], NameEnd, &[u8], &str); 10] = [
    (b"", NameEnd::Lf, b"", "no name"),
    (b"a\nbc\n", NameEnd::Lf, b"a|bc|", "two names"),
    (b"a\nbc", NameEnd::Lf, b"a|bc|", "the last is not ended"),
    (b"\n\na\n\n", NameEnd::Lf, b"a|", "empty names are left out"),
    (b"a\r\n", NameEnd::Lf, b"a\r|", "CR is part of a name"),
    (b"a\0b\nc\n", NameEnd::Lf, b"a0|c|", "NUL in a name"),
    (b"\0\n", NameEnd::Lf, b"0|", "a name of NUL alone"),
    (b"a\nb\0c\0", NameEnd::Nul, b"a\nb|c|", "LF in a name"),
    (b"a\0\0b", NameEnd::Nul, b"a|b|", "an empty name between"),
    (
        b"d\xE9\n",
        NameEnd::Lf,
        b"d\xE9|",
        "a name that is no UTF-8",
    ),
];

#[test]
fn gives_each_name_of_a_list(rt: HostRuntime) -> io::Result<()> {
    for (list, name_end, expected, case) in LISTS.iter() {
        let found = names_in(&rt, list, *name_end)?;
        holds(&rt, found.as_slice() == *expected, case);
    }
    Ok(())
}

#[test]
fn keeps_the_first_bytes_of_a_long_name(rt: HostRuntime) -> io::Result<()> {
    let mut list = Vec::new(rt.alloc());
    list.resize(20_000, b'a')?;
    list.extend_from_slice(b"\nb\n")?;
    let mut names = Names::new(list.as_slice(), NameEnd::Lf);
    let mut name = Vec::new(rt.alloc());
    let long = names.next_into(&mut name)?;
    holds(&rt, long == Listed::Name, "a long name");
    holds(&rt, name.len() == LONGEST_NAME, "a long name");
    let short = names.next_into(&mut name)?;
    holds(&rt, short == Listed::Name, "a short name");
    holds(&rt, name.as_slice() == b"b".as_slice(), "a short name");
    holds(&rt, names.next_into(&mut name)? == Listed::End, "the end");
    Ok(())
}
