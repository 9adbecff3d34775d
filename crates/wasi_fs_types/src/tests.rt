//! Each name through its conversion and each printed word, against lists that stand here.

use crate::{
    Advice, CwdText, DescriptorFlags, DescriptorStat, DescriptorType, ErrorCode, FilesystemError,
    MetadataHashValue, OpenFlags, OpenMode, PathFlags, p3,
};
use bitflags::Flags;
use std::test::Fail;
use wasi_base::{IoKind, TrapText};
use wasi_clocks::{Datetime, Instant};

const CODES: [(ErrorCode, &str, &str); 25] = [
    (ErrorCode::Access, "Access", "access"),
    (ErrorCode::Already, "Already", "already"),
    (ErrorCode::BadDescriptor, "BadDescriptor", "bad-descriptor"),
    (ErrorCode::Busy, "Busy", "busy"),
    (ErrorCode::Exist, "Exist", "exist"),
    (ErrorCode::FileTooLarge, "FileTooLarge", "file-too-large"),
    (
        ErrorCode::IllegalByteSequence,
        "IllegalByteSequence",
        "illegal-byte-sequence",
    ),
    (ErrorCode::InProgress, "InProgress", "in-progress"),
    (ErrorCode::Interrupted, "Interrupted", "interrupted"),
    (ErrorCode::Invalid, "Invalid", "invalid"),
    (ErrorCode::Io, "Io", "io"),
    (ErrorCode::IsDirectory, "IsDirectory", "is-directory"),
    (ErrorCode::Loop, "Loop", "loop"),
    (ErrorCode::TooManyLinks, "TooManyLinks", "too-many-links"),
    (ErrorCode::NameTooLong, "NameTooLong", "name-too-long"),
    (ErrorCode::NoEntry, "NoEntry", "no-entry"),
    (
        ErrorCode::InsufficientMemory,
        "InsufficientMemory",
        "insufficient-memory",
    ),
    (
        ErrorCode::InsufficientSpace,
        "InsufficientSpace",
        "insufficient-space",
    ),
    (ErrorCode::NotDirectory, "NotDirectory", "not-directory"),
    (ErrorCode::NotEmpty, "NotEmpty", "not-empty"),
    (ErrorCode::Unsupported, "Unsupported", "unsupported"),
    (ErrorCode::Overflow, "Overflow", "overflow"),
    (ErrorCode::NotPermitted, "NotPermitted", "not-permitted"),
    (ErrorCode::Pipe, "Pipe", "pipe"),
    (ErrorCode::InvalidSeek, "InvalidSeek", "invalid-seek"),
];

#[test]
fn a_code_keeps_its_name(rt: HostRuntime) -> Result<(), Fail> {
    for (code, name, _) in CODES {
        let converted = p3::ErrorCode::from(code);
        let text = format!(in rt.alloc(); "{converted:?}")?;
        assert_eq!(rt; text.as_str(), name);
    }
    Ok(())
}

#[test]
fn a_code_prints_its_word(rt: HostRuntime) -> Result<(), Fail> {
    for (code, _, word) in CODES {
        let text = format!(in rt.alloc(); "{code}")?;
        assert_eq!(rt; text.as_str(), word);
    }
    let error = FilesystemError::from(ErrorCode::NameTooLong);
    let text = format!(in rt.alloc(); "{error}")?;
    assert_eq!(rt; text.as_str(), "name-too-long");
    Ok(())
}

/// A refusal, a trap and out of memory print the same words under a width.
#[test]
fn a_width_pads_no_refusal(rt: HostRuntime) -> Result<(), Fail> {
    let refusals = [
        (FilesystemError::Normal(ErrorCode::NoEntry), "no-entry"),
        (
            FilesystemError::trap(TrapText::RequestedLength {
                length: 9,
                limit: 4,
            }),
            "requested len 9 exceeds limit 4",
        ),
        (FilesystemError::OutOfMemory, "out of memory"),
    ];
    for (error, words) in refusals {
        let text = format!(in rt.alloc(); "{error:>40}")?;
        assert_eq!(rt; text.as_str(), words);
    }
    Ok(())
}

#[test]
fn a_planned_fault_has_a_code(rt: HostRuntime) {
    let codes = [
        (IoKind::BrokenPipe, ErrorCode::Pipe),
        (IoKind::NotFound, ErrorCode::NoEntry),
        (IoKind::PermissionDenied, ErrorCode::Access),
        (IoKind::IsADirectory, ErrorCode::IsDirectory),
        (IoKind::WriteZero, ErrorCode::Io),
        (IoKind::Interrupted, ErrorCode::Interrupted),
        (IoKind::InvalidData, ErrorCode::Io),
        (IoKind::Other, ErrorCode::Io),
    ];
    for (kind, code) in codes {
        assert_eq!(rt; ErrorCode::from(kind), code);
    }
}

#[test]
fn an_advice_keeps_its_name(rt: HostRuntime) -> Result<(), Fail> {
    let advices = [
        (p3::Advice::Normal, "Normal"),
        (p3::Advice::Sequential, "Sequential"),
        (p3::Advice::Random, "Random"),
        (p3::Advice::WillNeed, "WillNeed"),
        (p3::Advice::DontNeed, "DontNeed"),
        (p3::Advice::NoReuse, "NoReuse"),
    ];
    for (advice, name) in advices {
        let converted = Advice::from(advice);
        let text = format!(in rt.alloc(); "{converted:?}")?;
        assert_eq!(rt; text.as_str(), name);
    }
    Ok(())
}

#[test]
fn a_descriptor_flag_keeps_its_name_both_ways(rt: HostRuntime) {
    let names = [
        "READ",
        "WRITE",
        "FILE_INTEGRITY_SYNC",
        "DATA_INTEGRITY_SYNC",
        "REQUESTED_WRITE_SYNC",
        "MUTATE_DIRECTORY",
    ];
    let mut bits = 1u8;
    for name in names {
        let converted = p3::DescriptorFlags::from(DescriptorFlags::from_bits_retain(bits));
        assert_eq!(rt;
            Some(converted),
            p3::DescriptorFlags::from_name(name),
            "{name}"
        );
        assert_eq!(rt;
            Some(DescriptorFlags::from(converted)),
            DescriptorFlags::from_name(name),
            "{name}"
        );
        bits = bits.wrapping_mul(2);
    }
    let every = p3::DescriptorFlags::from(DescriptorFlags::from_bits_retain(255));
    assert_eq!(rt; every.bits(), 63);
}

#[test]
fn an_open_flag_keeps_its_name(rt: HostRuntime) {
    let mut bits = 1u8;
    for name in ["CREATE", "DIRECTORY", "EXCLUSIVE", "TRUNCATE"] {
        let converted = OpenFlags::from(p3::OpenFlags::from_bits_retain(bits));
        assert_eq!(rt; Some(converted), OpenFlags::from_name(name), "{name}");
        bits = bits.wrapping_mul(2);
    }
    let every = OpenFlags::from(p3::OpenFlags::from_bits_retain(255));
    assert_eq!(rt; every.bits(), 15);
}

#[test]
fn a_path_flag_and_modes(rt: HostRuntime) {
    let converted = PathFlags::from(p3::PathFlags::from_bits_retain(255));
    assert_eq!(rt; Some(converted), PathFlags::from_name("SYMLINK_FOLLOW"));
    assert_eq!(rt; converted.bits(), 1);
    assert_eq!(rt; OpenMode::READ.bits(), 1);
    assert_eq!(rt; OpenMode::WRITE.bits(), 2);
}

#[test]
fn what_is_known_of_a_node(rt: HostRuntime) {
    let before = Datetime {
        seconds: -1,
        nanoseconds: 5,
    };
    let stat = DescriptorStat {
        type_: DescriptorType::Unknown,
        link_count: 2,
        size: 3,
        data_access_timestamp: Some(before),
        data_modification_timestamp: None,
        status_change_timestamp: None,
    };
    let converted = p3::DescriptorStat::from(stat);
    let instant = Instant {
        seconds: -1,
        nanoseconds: 5,
    };
    assert!(rt; matches!(converted.type_, p3::DescriptorType::Other(None)));
    assert_eq!(rt; converted.link_count, 2);
    assert_eq!(rt; converted.size, 3);
    assert_eq!(rt; converted.data_access_timestamp, Some(instant));
    assert_eq!(rt; converted.data_modification_timestamp, None);
}

#[test]
fn a_hash_keeps_its_halves(rt: HostRuntime) {
    let hash = p3::MetadataHashValue::from(MetadataHashValue { lower: 7, upper: 0 });
    assert_eq!(rt; hash.lower, 7);
    assert_eq!(rt; hash.upper, 0);
}

#[test]
fn a_text_of_its_own(rt: HostRuntime) -> Result<(), Fail> {
    let text = CwdText::new(String::from_str(rt.alloc(), "a/ä")?);
    assert_eq!(rt; text.as_str(), "a/ä");
    assert_eq!(rt; text.into_string().as_str(), "a/ä");
    Ok(())
}
