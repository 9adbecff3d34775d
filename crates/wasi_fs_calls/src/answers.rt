ghost use Rattle.std.specs.Prelude.{◌≡◌};
ghost use Rattle.wasi_fs_calls.specs.Rule.{is_refusal};

use wasi_fs::Descriptor;
use wasi_fs_types::{CwdText, DescriptorFlags, DescriptorStat, DescriptorType, ErrorCode};

/// What a call tells where it makes no descriptor.
#[derive(Drop)]
pub enum DescriptorTold {
    Ok,
    Flags(DescriptorFlags),
    Type(DescriptorType),
    Stat(DescriptorStat),
    /// The text of a link.
    Text(CwdText),
    /// Whether two descriptors are of one node.
    Truth(bool),
    /// The number of the node in its tree. Which tree it is, the caller knows.
    Hash { node: u64 },
    /// The call is refused.
    Err(ErrorCode),
}

/// What a call answers.
#[derive(Drop)]
pub enum DescriptorAnswer {
    Told(DescriptorTold),
    /// A new descriptor, of the tree that was called.
    Opened(Descriptor),
}

impl DescriptorAnswer {
    /// Whether the call was refused, and so changed nothing.
    pub fn is_refusal(&self) -> bool
        ensures { result ≡ is_refusal self.now }
    {
        matches!(self, DescriptorAnswer::Told(DescriptorTold::Err(_)))
    }
}
