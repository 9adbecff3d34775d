/// The interfaces of WASI 0.3 that contexts can be named for.
#[derive(Clone, Copy, Debug, PartialEq, Eq, Drop)]
pub enum Interface {
    ClocksMonotonicClock,
    ClocksSystemClock,
    RandomRandom,
    RandomInsecure,
    RandomInsecureSeed,
    CliExit,
    CliEnvironment,
    CliStdin,
    CliStdout,
    CliStderr,
    CliTerminalInput,
    CliTerminalOutput,
    CliTerminalStdin,
    CliTerminalStdout,
    CliTerminalStderr,
    FilesystemTypes,
    FilesystemPreopens,
    SocketsTypes,
    SocketsIpNameLookup,
}
