// Taking packets: Algorithm 1 of document 000 with 01's hashing, over lent working memory.
// It rests on packet for the key, filter for the flow's bits and cell for what a packet does to a cell.
#![tactic(auto)]

ghost use Rattle.std.specs.Prelude.{◌≡◌, length, Err, MatchResult};
ghost use Rattle.layout.specs.Sizes.{Lays, Ranged, ipv4_layout};
ghost use Rattle.cell.specs.Cell.{InTable};
ghost use Rattle.encoder.specs.Loops.{InCells, any_full, take_each, Lends, LendsNot, RoomsFit};
ghost use Rattle.encoder.specs.Encoder.{full_at, rooms_fit, start_number, take_number, take_error, taking, starting, start_of, offer_key, packet_of};

use hash::{Cells, Placing};
use layout::{Layout, Shape, Sizes};

// Why starting is refused.
#[derive(Clone, Copy, PartialEq, Eq)]
pub enum StartError {
    BadSizes,
    BadRoom,
}

impl StartError {
    // 01's number of the refusal.
    pub fn number(self) -> u32
        ensures { result ≡ start_number (Err self) }
    {
        match self {
            StartError::BadSizes => 3,
            StartError::BadRoom => 16,
        }
    }
}

// Why a packet is not taken.
#[derive(Clone, Copy, PartialEq, Eq)]
pub enum TakeError {
    BadSizes,
    BadRoom,
    NoKey,
    Full,
}

impl TakeError {
    // 01's number of the refusal.
    pub fn number(self) -> u32
        ensures { result ≡ take_number (Err self) }
    {
        match self {
            TakeError::BadSizes => 3,
            TakeError::BadRoom => 16,
            TakeError::NoKey => 6,
            TakeError::Full => 7,
        }
    }
}

// The packet call makes the tests of starting first.
impl From<StartError> for TakeError {
    ghost from_gives = { λ e given. given ≡ take_error e };

    fn from(e: StartError) -> TakeError {
        match e {
            StartError::BadSizes => TakeError::BadSizes,
            StartError::BadRoom => TakeError::BadRoom,
        }
    }
}

// Whether cell c has a counter that this packet would overflow.
#[tactic(auto, unfolding(crate::specs::Encoder::full_at))]
fn is_full(shape: Shape, cells: &[u8], c: usize, new: bool) -> bool
    requires { InTable shape.layout (length cells.now) c }
    ensures { result ≡ full_at shape.layout new cells.now c }
{
    cell::packet_count(shape.layout, cells, c) == u32::MAX
        || new && cell::flow_count(shape.layout, cells, c) == u16::MAX
}

// Whether one of the first k cells has such a counter.
fn any_full(shape: Shape, cells: &[u8], at: Cells, new: bool) -> bool
    requires { InCells shape.layout at.at shape.sizes.k (length cells.now) }
    ensures { result ≡ any_full shape.layout new cells.now at.at shape.sizes.k }
{
    at.at[..shape.sizes.k]
        .iter()
        .any(|c| is_full(shape, cells, *c, new))
}

// The packet in each of the first k cells.
fn take_each(shape: Shape, cells: &mut [u8], at: Cells, new: bool, key: &[u8])
    requires { InCells shape.layout at.at shape.sizes.k (length cells.old) × (length key.now ≡ shape.layout.key) }
    ensures { cells.new ≡ take_each shape.layout new key.now at.at shape.sizes.k cells.old }
{
    for c in &at.at[..shape.sizes.k] {
        cell::take_in(shape.layout, cells, *c, new, key);
    }
}

// A packet of a key whose places a value gives is taken, or refused since a counter is full: a new flow sets its bits.
// Filter and cells stay two parameters, as the public calls have them: a struct of both would be made for this one function.
fn take_placed(
    placing: Placing,
    filter: &mut [u8],
    cells: &mut [u8],
    key: &[u8],
) -> Result<(), TakeError>
    requires { RoomsFit placing.shape.layout placing.shape.sizes (length filter.old) (length cells.old)
        × (length key.now ≡ placing.shape.layout.key) }
    ensures { taking result filter.new cells.new
        ≡ offer_key placing.shape.layout placing.shape.sizes placing.salt key.now filter.old cells.old }
{
    let shape = placing.shape;
    let bits = placing.bits_of(key);
    let at = placing.cells_of(key);
    let new = filter::any_clear(filter, bits, shape.sizes.kf);
    if any_full(shape, cells, at, new) {
        return Err(TakeError::Full);
    }
    if new {
        filter::set_all(filter, bits, shape.sizes.kf);
    }
    take_each(shape, cells, at, new, key);
    Ok(())
}

// A packet of a key is taken, or refused since a counter is full. The key's length is the layout's.
pub fn take_key(
    l: Layout,
    z: Sizes,
    salt: u32,
    filter: &mut [u8],
    cells: &mut [u8],
    key: &[u8],
) -> Result<(), TakeError>
    requires { Lays l × Ranged z × RoomsFit l z (length filter.old) (length cells.old) × (length key.now ≡ l.key) }
    ensures { taking result filter.new cells.new
        ≡ offer_key l z salt key.now filter.old cells.old }
{
    let shape = Shape {
        layout: l,
        sizes: z,
    };
    take_placed(Placing::new(shape, salt), filter, cells, key)
}

// Whether filter and cells are lent in the lengths that the sizes give.
#[tactic(auto, unfolding(crate::specs::Encoder::rooms_fit))]
fn rooms_fit(shape: Shape, filter: usize, cells: usize) -> bool
    ensures { result ≡ rooms_fit shape.layout shape.sizes filter cells }
{
    filter == shape.filter_bytes() && cells == shape.cell_bytes()
}

// The shape of an IPv4 flowset, where its filter and cells are lent in their lengths.
fn lent_shape(z: Sizes, filter: usize, cells: usize) -> Result<Shape, StartError>
    ensures { MatchResult result (Lends ipv4_layout z filter cells) (LendsNot ipv4_layout z filter cells) }
{
    let shape = Shape::new(layout::ipv4(), z).ok_or(StartError::BadSizes)?;
    if rooms_fit(shape, filter, cells) {
        Ok(shape)
    } else {
        Err(StartError::BadRoom)
    }
}

// Clears working memory.
pub fn start(z: Sizes, filter: &mut [u8], cells: &mut [u8]) -> Result<(), StartError>
    ensures { starting result filter.new cells.new
        ≡ start_of ipv4_layout z filter.old cells.old }
{
    lent_shape(z, filter.len(), cells.len())?;
    filter.fill(0);
    cells.fill(0);
    Ok(())
}

// A packet, from its IPv4 header on.
pub fn packet(
    z: Sizes,
    salt: u32,
    filter: &mut [u8],
    cells: &mut [u8],
    packet: &[u8],
) -> Result<(), TakeError>
    ensures { taking result filter.new cells.new
        ≡ packet_of z salt packet.now filter.old cells.old }
{
    let shape = lent_shape(z, filter.len(), cells.len())?;
    let Some(key) = packet::key_of(packet) else {
        return Err(TakeError::NoKey);
    };
    let bytes = <[u8; 13]>::from(key);
    take_key(shape.layout, z, salt, filter, cells, &bytes)
}
