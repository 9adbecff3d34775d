use crate::numbers::{IO_REPARSE_TAG_MOUNT_POINT, IO_REPARSE_TAG_SYMLINK};
use crate::{ReparseError, read_reparse};
use std::alloc::{AllocError, Global};
use std::test::Fail;

/// The data of a reparse point whose names are this text, of which its name is a part. A link has
/// flags.
fn data(
    alloc: Global,
    flags: Option<u32>,
    offset: u16,
    length: u16,
    names: &str,
) -> Result<Vec<u8>, AllocError> {
    let tag = match flags {
        Some(_) => IO_REPARSE_TAG_SYMLINK,
        None => IO_REPARSE_TAG_MOUNT_POINT,
    };
    let [a, b, c, d] = tag.to_le_bytes();
    let [e, f] = offset.to_le_bytes();
    let [g, h] = length.to_le_bytes();
    let start = [
        a, b, c, d, 0xff, 0xff, 0xff, 0xff, e, f, g, h, 0xff, 0xff, 0xff, 0xff,
    ];
    let mut bytes = Vec::from_slice(alloc, &start)?;
    if let Some(flags) = flags {
        bytes.extend_from_slice(&flags.to_le_bytes())?;
    }
    for unit in names.encode_utf16() {
        bytes.extend_from_slice(&unit.to_le_bytes())?;
    }
    Ok(bytes)
}

#[test]
fn reads_names(rt: HostRuntime) -> Result<(), Fail> {
    let alloc = rt.alloc();
    let cases = [
        (None, 0, 2, "a", "a"),
        (None, 2, 4, "xa¹y", "a¹"),
        (None, 0, 14, "\\??\\C:x", "C:x"),
        (Some(0), 0, 14, "\\??\\C:x", "C:x"),
        (Some(2), 0, 14, "\\??\\C:x", "C:x"),
        (Some(1), 0, 14, "\\??\\C:x", "\\??\\C:x"),
        (Some(0), 0, 6, "\\??\\C:x", "\\??"),
        (Some(1), 4, 0, "ab", ""),
    ];
    for (flags, offset, length, names, shown) in cases {
        let bytes = data(alloc, flags, offset, length, names)?;
        let units = read_reparse(alloc, bytes.as_slice())?;
        let shown = super::wide(alloc, shown)?;
        assert_eq!(rt;
            units.as_slice(),
            shown.as_slice(),
            "{flags:?} {offset} {length}"
        );
    }
    Ok(())
}

#[test]
fn refuses_data(rt: HostRuntime) -> Result<(), Fail> {
    let alloc = rt.alloc();
    for (offset, length) in [(1, 2), (0, 3), (1, 1), (4, 2), (0, 6), (0xffff, 0xffff)] {
        let bytes = data(alloc, Some(0), offset, length, "ab")?;
        let refused = read_reparse(alloc, bytes.as_slice()).err();
        assert_eq!(rt; refused, Some(ReparseError::Malformed), "{offset} {length}");
    }
    for flags in [None, Some(1)] {
        let bytes = data(alloc, flags, 0, 4, "ab")?;
        for cut in 0..bytes.len() {
            let refused = read_reparse(alloc, &bytes.as_slice()[..cut]).err();
            assert_eq!(rt; refused, Some(ReparseError::Malformed), "{flags:?} {cut}");
        }
    }
    let refused = read_reparse(alloc, &[0x0c, 0, 0, 0xa1, 0, 0, 0, 0]).err();
    assert_eq!(rt; refused, Some(ReparseError::Unsupported));
    Ok(())
}

#[test]
fn tells_why(rt: HostRuntime) -> Result<(), Fail> {
    let texts = [
        (ReparseError::Malformed, "malformed reparse point data"),
        (ReparseError::Unsupported, "Unsupported reparse point type"),
        (ReparseError::OutOfMemory, "out of memory"),
    ];
    for (error, text) in texts {
        assert_eq!(rt; error.to_string(rt.alloc())?.as_str(), text);
        let wide = format!(in rt.alloc(); "{error:>40}")?;
        assert_eq!(rt; wide.as_str(), text);
    }
    Ok(())
}
