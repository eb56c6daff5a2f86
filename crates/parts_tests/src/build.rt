//! Where a program says what it was built from.

use geolint_report::own_build::{BuildPlace, build_place};

#[test]
fn the_text_after_the_last_mark(rt: HostRuntime) {
    let file = b"geolint-build:%s\0geolint-build:\ncommit: 1\nproved by: 2\n\0more\0";
    assert_eq!(rt; build_place(file), Some(BuildPlace { start: 32, end: 55 }));
    assert_eq!(rt; &file[32..55], b"commit: 1\nproved by: 2\n".as_slice());
    assert_eq!(rt; build_place(b"geolint-build:\ncommit: 1\n"), None);
    assert_eq!(rt; build_place(b"geolint-build:\ntext\0"), None);
    assert_eq!(rt; build_place(b""), None);
}
