// Sealing: the blocks of an image are written, or nothing is. It rests on block, fields and layout.
#![tactic(auto)]

ghost use Rattle.std.specs.Prelude.{◌≡◌, true, ◌++◌, ◌+◌, ◌*◌, ◌≤◌, ◌<◌, length, take, drop, replicate};
ghost use Rattle.laws.specs.Upto.{join_upto};
ghost use Rattle.layout.specs.Sizes.{Lays, Ranged, ipv4_layout};
ghost use Rattle.block.specs.Block.{header, padded, checked, block, block_of, image_of};
ghost use Rattle.sealing.specs.Seal.{seal_rooms, sealing, seal_of, error_number};

use layout::{Layout, Shape, Sizes};

// Why sealing refuses.
#[derive(Clone, Copy)]
pub enum SealError {
    BadSizes,
    BadRoom,
    BadZero,
}

impl SealError {
    // 01's number of the refusal.
    pub fn number(self) -> u32
        ensures { result ≡ error_number self }
    {
        match self {
            SealError::BadSizes => 3,
            SealError::BadRoom => 16,
            SealError::BadZero => 3,
        }
    }
}

// What the blocks of one kind say alike.
#[derive(Clone, Copy)]
struct Header {
    // a byte of the format, which the layout gives
    kind: u8,
    shape: Shape,
    salt: u32,
    slot: u32,
}

impl Header {
    // Writes the header of block n.
    fn put(self, b: &mut [u8], n: usize)
        requires { (n < 65536) × (16 ≤ length b.old) }
        ensures { b.new ≡ header self.kind self.shape.sizes n self.salt self.slot ++ drop 16 b.old }
    {
        let z = self.shape.sizes;
        b[0] = self.kind;
        b[1] = z.kf as u8;
        b[2] = z.f as u8;
        b[3] = z.k as u8;
        b[4] = z.q as u8;
        b[5] = 0;
        fields::put_short(b, 6, n as u16);
        fields::put_long(b, 8, self.salt);
        fields::put_long(b, 12, self.slot);
    }

    // Writes block n of an image.
    fn put_block(self, b: &mut [u8], n: usize, bytes: &[u8])
        requires { (n < 65536) × (length bytes.now ≤ 480) × (length b.old ≡ 512) }
        ensures { b.new ≡ block self.kind self.shape.sizes n self.salt self.slot (padded bytes.now) }
    {
        self.put(b, n);
        put_payload(&mut b[16..], bytes);
        put_end(b);
    }

    // Writes `count` blocks, the first of them block `first` of the image, each with the next `width` bytes. Once chunks of a slice have been lent to be
    // written, its bytes are not known: so the blocks go by number.
    fn put_blocks(self, first: usize, count: usize, width: usize, bytes: &[u8], part: &mut [u8])
        requires { (first + count ≤ 80) × (width ≤ 480) × (length bytes.now ≡ count * width) × (length part.old ≡ count * 512) }
        ensures { part.new ≡ join_upto count (block_of self.kind self.shape.sizes self.salt self.slot first width bytes.now) }
    {
        for n in 0..count {
            let start = n * 512;
            let from = n * width;
            self.put_block(
                &mut part[start..start + 512],
                first + n,
                &bytes[from..from + width],
            );
        }
    }
}

// Writes a payload from its start on: the bytes, and zeros up to 480.
fn put_payload(rest: &mut [u8], bytes: &[u8])
    requires { (length bytes.now ≤ 480) × (480 ≤ length rest.old) }
    ensures { rest.new ≡ padded bytes.now ++ drop 480 rest.old }
{
    let n = bytes.len();
    fields::copy_in(&mut rest[..n], bytes);
    rest[n..480].fill(0);
}

// Writes what follows the payload: 12 zeros and the check.
fn put_end(b: &mut [u8])
    requires { length b.old ≡ 512 }
    ensures { b.new ≡ checked (take 496 b.old ++ replicate 12 0) }
{
    b[496..508].fill(0);
    let check = block::check_of(b);
    fields::put_long(b, 508, check);
}

// Whether filter, cells and image have the lengths that the sizes ask for.
#[tactic(auto, unfolding(crate::specs::Seal::seal_rooms))]
fn seal_rooms(shape: Shape, filter: usize, cells: usize, image: usize) -> bool
    ensures { result ≡ seal_rooms shape.layout shape.sizes filter cells image }
{
    filter == shape.filter_bytes()
        && cells == shape.cell_bytes()
        && image == shape.block_count() * 512
}

// Writes the image: the filter blocks, then the cell blocks.
fn put_image(shape: Shape, salt: u32, slot: u32, filter: &[u8], cells: &[u8], image: &mut [u8])
    requires { seal_rooms shape.layout shape.sizes (length filter.now) (length cells.now) (length image.old) ≡ true }
    ensures { image.new ≡ image_of shape.layout shape.sizes salt slot filter.now cells.now }
{
    let l = shape.layout;
    let z = shape.sizes;
    let filters = Header {
        kind: l.filter,
        shape,
        salt,
        slot,
    };
    let tables = Header {
        kind: l.table,
        ..filters
    };
    let (front, back) = image.split_at_mut(z.f * 512);
    filters.put_blocks(0, z.f, 480, filter, front);
    tables.put_blocks(z.f, z.k * z.q, l.cells * l.cell, cells, back);
}

// Seals a flowset of any layout.
fn seal_in(
    l: Layout,
    z: Sizes,
    salt: u32,
    slot: u32,
    filter: &[u8],
    cells: &[u8],
    image: &mut [u8],
) -> Result<(), SealError>
    requires { Lays l }
    ensures { sealing result image.new ≡ seal_of l z salt slot filter.now cells.now image.old }
{
    let shape = Shape::new(l, z).ok_or(SealError::BadSizes)?;
    if !seal_rooms(shape, filter.len(), cells.len(), image.len()) {
        return Err(SealError::BadRoom);
    }
    if !block::zero_bytes(shape.layout, shape.table_cells(), cells) {
        return Err(SealError::BadZero);
    }
    put_image(shape, salt, slot, filter, cells, image);
    Ok(())
}

// Seals a flowset of IPv4 keys: its filter and cells are written into `image`, or nothing is.
pub fn seal(
    z: Sizes,
    salt: u32,
    slot: u32,
    filter: &[u8],
    cells: &[u8],
    image: &mut [u8],
) -> Result<(), SealError>
    ensures { sealing result image.new ≡ seal_of ipv4_layout z salt slot filter.now cells.now image.old }
{
    seal_in(layout::ipv4(), z, salt, slot, filter, cells, image)
}
