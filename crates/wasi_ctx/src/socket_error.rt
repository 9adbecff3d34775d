use thiserror::Error;
use wasi_base::TrappableError;

/// Why a call on sockets fails. There are no sockets, so it is the one reason.
#[derive(Clone, Copy, Debug, PartialEq, Eq, Drop, Error)]
pub enum SocketErrorCode {
    #[error("not-supported")]
    NotSupported,
}

/// What a call on sockets answers that fails.
pub type SocketError = TrappableError<SocketErrorCode>;

/// What a call on sockets answers.
pub type SocketResult<T> = Result<T, SocketError>;
