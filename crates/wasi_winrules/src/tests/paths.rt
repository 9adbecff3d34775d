use super::wide;
use crate::{
    path_has_trailing_dot, path_has_trailing_slash, path_really_has_trailing_dot,
    path_requires_dir, strip_dir_suffix,
};
use std::test::Fail;

#[test]
fn strips_separators(rt: HostRuntime) -> Result<(), Fail> {
    let cases = [
        ("/foo//", "/foo"),
        ("/foo/", "/foo"),
        ("foo/", "foo"),
        ("foo", "foo"),
        ("/", "/"),
        ("//", "/"),
        ("\\foo\\\\", "\\foo"),
        ("\\foo\\", "\\foo"),
        ("foo\\", "foo"),
        ("\\", "\\"),
        ("\\\\", "\\"),
        ("", ""),
        ("/.", "/."),
        ("//.", "//."),
        (".", "."),
        ("foo/.", "foo/."),
    ];
    for (path, kept) in cases {
        let whole = wide(rt.alloc(), path)?;
        let kept = wide(rt.alloc(), kept)?;
        assert_eq!(rt;
            strip_dir_suffix(whole.as_slice()),
            kept.as_slice(),
            "at {path}"
        );
    }
    Ok(())
}

#[test]
fn tells_how_paths_end(rt: HostRuntime) -> Result<(), Fail> {
    // Paths that end in a separator, in one and a dot, and in neither.
    let cases = [
        (
            "/ // foo/ foo// foo/./ foo/.// \\ \\\\ foo\\ foo\\\\ foo\\.\\ foo\\.\\\\",
            true,
            false,
        ),
        ("/./. foo//. foo/./. \\.\\. foo\\\\. foo\\.\\.", false, true),
        (". foo foo. /./foo .. /.. \\.\\foo \\..", false, false),
    ];
    for (paths, slash, dot) in cases {
        for path in paths.split_whitespace() {
            let units = wide(rt.alloc(), path)?;
            let units = units.as_slice();
            assert_eq!(rt; path_has_trailing_slash(units), slash, "at {path}");
            assert_eq!(rt; path_really_has_trailing_dot(units), dot, "at {path}");
            assert_eq!(rt; path_requires_dir(units), slash || dot, "at {path}");
            assert!(rt; !path_has_trailing_dot(units), "at {path}");
        }
    }
    Ok(())
}
