// Reading: an image's sizes and salt, or the first refusal in 01's order. It rests on form, block, hash, fields and layout.
#![tactic(auto)]

ghost use Rattle.std.specs.Prelude.{◌≡◌, ◌-◌, ◌*◌, ◌≤◌, length};
ghost use Rattle.layout.specs.Sizes.{Lays, ipv4_layout, blocks};
ghost use Rattle.reading.specs.Right.{right_blocks};
ghost use Rattle.reading.specs.Read.{bad_length, read_later, read_of, error_number, error_block};

use layout::{Layout, Shape, Sizes};

// What an image says of itself.
#[derive(Clone, Copy)]
pub struct Image {
    pub sizes: Sizes,
    pub salt: u32,
}

// Why reading refuses, with the block where one is named.
#[derive(Clone, Copy)]
pub enum ReadError {
    Length,
    Check(usize),
    Form(usize),
    Mixed(usize),
    Stale,
}

impl ReadError {
    // 01's number of the refusal.
    pub fn number(self) -> u32
        ensures { result ≡ error_number self }
    {
        match self {
            ReadError::Length => 1,
            ReadError::Check(_) => 2,
            ReadError::Form(_) => 3,
            ReadError::Mixed(_) => 4,
            ReadError::Stale => 5,
        }
    }

    // The block that 01 names with it, 0 where it names none.
    pub fn block(self) -> usize
        ensures { result ≡ error_block self }
    {
        match self {
            ReadError::Check(n) | ReadError::Form(n) | ReadError::Mixed(n) => n,
            ReadError::Length | ReadError::Stale => 0,
        }
    }
}

// Whether an image cannot have this length.
#[tactic(auto, unfolding(crate::specs::Read::bad_length))]
fn bad_length(n: usize) -> bool
    ensures { result ≡ bad_length n }
{
    n == 0 || n % 512 != 0 || 40960 < n
}

// Whether a block's check is the one that belongs there.
#[tactic(auto, unfolding(crate::specs::Read::checks))]
fn checks(b: &[u8]) -> bool
    requires { length b.now ≡ 512 }
    ensures { result ≡ Rattle.reading.specs.Read.checks b.now }
{
    fields::long_at(b, 508) == block::check_of(b)
}

// How many of four blocks have the right check, up to the first that has not. One chain waits for its multiply at every byte, so the four run beside
// each other.
fn right_of_four(four: &[u8]) -> usize
    requires { length four.now ≡ 2048 }
    ensures { result ≡ right_blocks 4 four.now }
{
    let checks = hash::fnv_of_four(
        &four[0..508],
        &four[512..1020],
        &four[1024..1532],
        &four[1536..2044],
    );
    for n in 0..4 {
        if fields::long_at(four, n * 512 + 508) != checks[n] {
            return n;
        }
    }
    4
}

// How many of `count` blocks have the right check, up to the first that has not; the first n are known to have it.
fn right_from(n: usize, count: usize, blocks: &[u8]) -> usize
    requires { (n ≤ count) × (count ≤ 80) × (length blocks.now ≡ count * 512) × (right_blocks n blocks.now ≡ n) }
    ensures { result ≡ right_blocks count blocks.now }
{
    for m in n..count {
        if !checks(&blocks[m * 512..m * 512 + 512]) {
            return m;
        }
    }
    count
}

// The same, four blocks at a time as long as there are four.
fn right_blocks(count: usize, blocks: &[u8]) -> usize
    requires { (count ≤ 80) × (length blocks.now ≡ count * 512) }
    ensures { result ≡ right_blocks count blocks.now }
{
    for i in 0..count / 4 {
        let n = i * 4;
        let right = right_of_four(&blocks[n * 512..n * 512 + 2048]);
        if right < 4 {
            return n + right;
        }
    }
    right_from(count / 4 * 4, count, blocks)
}

// Reads the blocks after block 0, whose sizes and salt are given. All checks are worked out first; a block's is asked in its turn.
fn read_later(shape: Shape, salt: u32, slot: u32, image: &[u8]) -> Result<Image, ReadError>
    requires { length image.now ≡ blocks shape.sizes * 512 }
    ensures { result ≡ read_later shape.layout shape.sizes salt slot image.now 1 (blocks shape.sizes - 1) }
{
    let count = shape.block_count();
    let right = right_blocks(count - 1, &image[512..]);
    for n in 1..count {
        let b = &image[n * 512..n * 512 + 512];
        if n == right + 1 {
            return Err(ReadError::Check(n));
        }
        if !form::formed(shape.layout, shape.sizes, n, b) {
            return Err(ReadError::Form(n));
        }
        if fields::long_at(b, 8) != salt || fields::long_at(b, 12) != slot {
            return Err(ReadError::Mixed(n));
        }
    }
    Ok(Image {
        sizes: shape.sizes,
        salt,
    })
}

// Reads an image of any layout.
pub fn read_in(l: Layout, image: &[u8], slot: u32) -> Result<Image, ReadError>
    requires { Lays l }
    ensures { result ≡ read_of l image.now slot }
{
    if bad_length(image.len()) {
        return Err(ReadError::Length);
    }
    let b = &image[0..512];
    if !checks(b) {
        return Err(ReadError::Check(0));
    }
    let shape = Shape::new(l, form::sizes_in(b)).ok_or(ReadError::Form(0))?;
    if !form::formed(shape.layout, shape.sizes, 0, b) {
        return Err(ReadError::Form(0));
    }
    if image.len() != shape.block_count() * 512 {
        return Err(ReadError::Length);
    }
    if fields::long_at(b, 12) != slot {
        return Err(ReadError::Stale);
    }
    read_later(shape, fields::long_at(b, 8), slot, image)
}

// Reads an image of IPv4 keys that is wanted of this slot.
pub fn read(image: &[u8], slot: u32) -> Result<Image, ReadError>
    ensures { result ≡ read_of ipv4_layout image.now slot }
{
    read_in(layout::ipv4(), image, slot)
}
