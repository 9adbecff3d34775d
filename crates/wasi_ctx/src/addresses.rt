/// The address of a socket: an IP address, and a port.
#[derive(Clone, Copy, Debug, PartialEq, Eq, Drop)]
pub enum SockAddr {
    /// The bytes of the address, the first one first.
    V4([u8; 4], u16),
    /// The 16-bit groups of the address, the first one first.
    V6([u16; 8], u16),
}

/// What a guest would use an address for.
#[derive(Clone, Copy, Debug, PartialEq, Eq, Drop)]
pub enum SocketAddrUse {
    TcpBind,
    TcpConnect,
    UdpBind,
    UdpConnect,
    UdpOutgoingDatagram,
}
