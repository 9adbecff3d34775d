ghost use Rattle.std.specs.Prelude.{◌≡◌};
ghost use Rattle.wasi_fs_types.specs.Names.{p3_code, host_advice, p3_type};

use crate::{Advice, DescriptorType, ErrorCode, p3};

impl From<ErrorCode> for p3::ErrorCode {
    ghost from_gives = { λ code result. result ≡ p3_code code };

    fn from(code: ErrorCode) -> p3::ErrorCode {
        match code {
            ErrorCode::Access => p3::ErrorCode::Access,
            ErrorCode::Already => p3::ErrorCode::Already,
            ErrorCode::BadDescriptor => p3::ErrorCode::BadDescriptor,
            ErrorCode::Busy => p3::ErrorCode::Busy,
            ErrorCode::Exist => p3::ErrorCode::Exist,
            ErrorCode::FileTooLarge => p3::ErrorCode::FileTooLarge,
            ErrorCode::IllegalByteSequence => p3::ErrorCode::IllegalByteSequence,
            ErrorCode::InProgress => p3::ErrorCode::InProgress,
            ErrorCode::Interrupted => p3::ErrorCode::Interrupted,
            ErrorCode::Invalid => p3::ErrorCode::Invalid,
            ErrorCode::Io => p3::ErrorCode::Io,
            ErrorCode::IsDirectory => p3::ErrorCode::IsDirectory,
            ErrorCode::Loop => p3::ErrorCode::Loop,
            ErrorCode::TooManyLinks => p3::ErrorCode::TooManyLinks,
            ErrorCode::NameTooLong => p3::ErrorCode::NameTooLong,
            ErrorCode::NoEntry => p3::ErrorCode::NoEntry,
            ErrorCode::InsufficientMemory => p3::ErrorCode::InsufficientMemory,
            ErrorCode::InsufficientSpace => p3::ErrorCode::InsufficientSpace,
            ErrorCode::NotDirectory => p3::ErrorCode::NotDirectory,
            ErrorCode::NotEmpty => p3::ErrorCode::NotEmpty,
            ErrorCode::Unsupported => p3::ErrorCode::Unsupported,
            ErrorCode::Overflow => p3::ErrorCode::Overflow,
            ErrorCode::NotPermitted => p3::ErrorCode::NotPermitted,
            ErrorCode::Pipe => p3::ErrorCode::Pipe,
            ErrorCode::InvalidSeek => p3::ErrorCode::InvalidSeek,
        }
    }
}

impl From<p3::Advice> for Advice {
    ghost from_gives = { λ advice result. result ≡ host_advice advice };

    fn from(advice: p3::Advice) -> Advice {
        match advice {
            p3::Advice::Normal => Advice::Normal,
            p3::Advice::Sequential => Advice::Sequential,
            p3::Advice::Random => Advice::Random,
            p3::Advice::WillNeed => Advice::WillNeed,
            p3::Advice::DontNeed => Advice::DontNeed,
            p3::Advice::NoReuse => Advice::NoReuse,
        }
    }
}

/// A type that is not known is another one without a word for it.
impl From<DescriptorType> for p3::DescriptorType {
    ghost from_gives = { λ kind result. result ≡ p3_type kind };

    fn from(kind: DescriptorType) -> p3::DescriptorType {
        match kind {
            DescriptorType::Unknown => p3::DescriptorType::Other(None),
            DescriptorType::BlockDevice => p3::DescriptorType::BlockDevice,
            DescriptorType::CharacterDevice => p3::DescriptorType::CharacterDevice,
            DescriptorType::Directory => p3::DescriptorType::Directory,
            DescriptorType::SymbolicLink => p3::DescriptorType::SymbolicLink,
            DescriptorType::RegularFile => p3::DescriptorType::RegularFile,
        }
    }
}
