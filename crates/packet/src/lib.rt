// From an IPv4 packet to its key, or to refusal 6; and a key as 13 bytes in network order, there and back.
// It rests on fields, for the numbers in its bytes.
#![tactic(auto)]

ghost use Rattle.std.specs.Prelude.{◌≡◌, false, ◌+◌, ◌≤◌, length};
ghost use Rattle.packet.specs.Key.{key_bytes, key_from};
ghost use Rattle.packet.specs.Packet.{header_bytes, fragment_offset, has_ports, refused, port, key_in, key_of};

// A key: the five numbers that name a flow.
#[derive(Clone, Copy, PartialEq, Eq)]
pub struct Key {
    pub source: u32,
    pub destination: u32,
    pub sport: u16,
    pub dport: u16,
    pub protocol: u8,
}

// The length of the header, which byte 0 gives in words of 4 bytes.
#[tactic(auto, unfolding(crate::specs::Packet::header_words, crate::specs::Packet::header_bytes))]
fn header_bytes(packet: &[u8]) -> usize
    requires { 20 ≤ length packet.now }
    ensures { result ≡ header_bytes packet.now }
{
    4 * ((packet[0] % 16) as usize)
}

// The low 13 bits of bytes 6 and 7; the flags above them do not count.
#[tactic(auto, unfolding(crate::specs::Packet::fragment_offset))]
fn fragment_offset(packet: &[u8]) -> u16
    requires { 20 ≤ length packet.now }
    ensures { result ≡ fragment_offset packet.now }
{
    fields::short_at(packet, 6) % 8192
}

// Whether the 4 bytes after the header are ports.
#[tactic(auto, unfolding(crate::specs::Packet::protocol, crate::specs::Packet::has_ports))]
fn has_ports(packet: &[u8]) -> bool
    requires { 20 ≤ length packet.now }
    ensures { result ≡ has_ports packet.now }
{
    matches!(packet[9], 6 | 17) && fragment_offset(packet) == 0
}

// Whether one of the causes of refusal 6 holds, tested in their order.
#[tactic(auto, unfolding(crate::specs::Packet::version, crate::specs::Packet::header_words, crate::specs::Packet::header_bytes, crate::specs::Packet::refused))]
fn is_refused(packet: &[u8]) -> bool
    ensures { result ≡ refused packet.now }
{
    packet.len() < 20
        || packet[0] / 16 != 4
        || header_bytes(packet) < 20
        || packet.len() < header_bytes(packet)
        || packet.len() - header_bytes(packet) < 4 && has_ports(packet)
}

// The port at place i after the header, or 0 where the packet has no ports.
#[tactic(auto, using(crate::proofs::Packet::roomy), unfolding(crate::specs::Packet::port))]
fn port_at(packet: &[u8], i: usize) -> u16
    requires { (refused packet.now ≡ false) × (i ≤ 2) }
    ensures { result ≡ port packet.now i }
{
    if has_ports(packet) {
        let header = header_bytes(packet);
        let at = header + i;
        return fields::short_at(packet, at);
    }
    0
}

// The key of a packet that is not refused.
#[tactic(auto, using(crate::proofs::Packet::roomy), unfolding(crate::specs::Packet::protocol, crate::specs::Packet::key_in))]
fn key_in(packet: &[u8]) -> Key
    requires { refused packet.now ≡ false }
    ensures { result ≡ key_in packet.now }
{
    Key {
        source: fields::long_at(packet, 12),
        destination: fields::long_at(packet, 16),
        sport: port_at(packet, 0),
        dport: port_at(packet, 2),
        protocol: packet[9],
    }
}

// The key of a packet that starts at its IPv4 header; none is refusal 6.
#[tactic(auto, unfolding(crate::specs::Packet::key_of))]
pub fn key_of(packet: &[u8]) -> Option<Key>
    ensures { result ≡ key_of packet.now }
{
    if is_refused(packet) {
        return None;
    }
    Some(key_in(packet))
}

// The 13 bytes of a key.
impl From<Key> for [u8; 13] {
    ghost from_gives = { λ key bytes. bytes ≡ key_bytes key };

    fn from(key: Key) -> [u8; 13] {
        let mut bytes = [0; 13];
        bytes[..4].copy_from_slice(&key.source.to_be_bytes());
        bytes[4..8].copy_from_slice(&key.destination.to_be_bytes());
        bytes[8..10].copy_from_slice(&key.sport.to_be_bytes());
        bytes[10..12].copy_from_slice(&key.dport.to_be_bytes());
        bytes[12] = key.protocol;
        bytes
    }
}

// The key that 13 bytes are.
impl From<&[u8; 13]> for Key {
    ghost from_gives = { λ bytes key. key ≡ key_from bytes.now };

    fn from(bytes: &[u8; 13]) -> Key {
        Key {
            source: fields::long_at(bytes, 0),
            destination: fields::long_at(bytes, 4),
            sport: fields::short_at(bytes, 8),
            dport: fields::short_at(bytes, 10),
            protocol: bytes[12],
        }
    }
}
