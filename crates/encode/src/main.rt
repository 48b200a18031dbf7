// Makes an image from packets: a switch's part, for samples and tries. Standard input: kf, F, k, q (1 byte each), salt and slot (4 each, high byte first), then
// packets, each after how often it is taken (4 bytes) and its length (2). Standard output: the image, or nothing and a line on standard error.
#![tactic(auto)]

ghost use Rattle.std.specs.Prelude.{◌≤◌};
ghost use Rattle.encode.specs.declared.TheConstants.{FILTER, CELLS, IMAGE};

use encoder::{StartError, TakeError};
use layout::{Shape, Sizes};
use sealing::SealError;
use source::Packets;
use std::io::Write;
use std::{fmt, io};

// As much of standard input as is read.
const ROOM: usize = 65536;

// The longest filter, cells and image.
const FILTER: usize = 7680;

const CELLS: usize = 30720;

const IMAGE: usize = 40960;

// What is said of an input, with a refusal's number.
#[derive(Clone, Copy)]
enum Trouble {
    Head,
    Sizes,
    Room,
    Key,
    Full,
    CutShort,
    ZeroByte,
}

// The whole line: standard error is not buffered, and what is written in one piece stays together.
impl fmt::Display for Trouble {
    fn fmt<W: fmt::Write>(&self, f: &mut fmt::Formatter<W>) -> fmt::Result {
        f.write_str(match self {
            Trouble::Head => "encode: want sizes, salt and slot\n",
            Trouble::Sizes => "encode: sizes out of range (3)\n",
            Trouble::Room => "encode: room (16)\n",
            Trouble::Key => "encode: a packet has no key (6)\n",
            Trouble::Full => "encode: a counter is full (7)\n",
            Trouble::CutShort => "encode: the last packet is cut short\n",
            Trouble::ZeroByte => "encode: a zero byte (3)\n",
        })
    }
}

impl From<StartError> for Trouble {
    fn from(e: StartError) -> Trouble {
        Trouble::from(TakeError::from(e))
    }
}

impl From<TakeError> for Trouble {
    fn from(e: TakeError) -> Trouble {
        match e {
            TakeError::BadSizes => Trouble::Sizes,
            TakeError::BadRoom => Trouble::Room,
            TakeError::NoKey => Trouble::Key,
            TakeError::Full => Trouble::Full,
        }
    }
}

impl From<SealError> for Trouble {
    fn from(e: SealError) -> Trouble {
        match e {
            SealError::BadSizes => Trouble::Sizes,
            SealError::BadRoom => Trouble::Room,
            SealError::BadZero => Trouble::ZeroByte,
        }
    }
}

// Why there is no image: trouble that is still to be said, or input or output that failed.
#[derive(Drop)]
enum Failure {
    Trouble(Trouble),
    Io(io::Error),
}

impl From<Trouble> for Failure {
    fn from(trouble: Trouble) -> Failure {
        Failure::Trouble(trouble)
    }
}

impl From<io::Error> for Failure {
    fn from(error: io::Error) -> Failure {
        Failure::Io(error)
    }
}

fn say(said: &mut impl Write, trouble: Trouble) -> io::Result<()> {
    write!(said, "{trouble}")
}

// How long filter, cells and image are: no longer than the program has room for.
#[derive(Clone, Copy)]
struct Lengths {
    filter: usize,
    cells: usize,
    image: usize,
    ghost within: { (filter ≤ FILTER) × (cells ≤ CELLS) × (image ≤ IMAGE) },
}

impl TryFrom<Sizes> for Lengths {
    type Error = Trouble;

    fn try_from(z: Sizes) -> Result<Lengths, Trouble> {
        let shape = Shape::new(layout::ipv4(), z).ok_or(Trouble::Sizes)?;
        let filter = shape.filter_bytes();
        let cells = shape.cell_bytes();
        let image = shape.block_count() * 512;
        Ok(Lengths {
            filter,
            cells,
            image,
        })
    }
}

// A flowset in working memory, from its start on. Refusals are trouble.
#[derive(Drop)]
struct Flowset<'a> {
    z: Sizes,
    salt: u32,
    filter: &'a mut [u8],
    cells: &'a mut [u8],
}

impl<'a> Flowset<'a> {
    fn start(
        z: Sizes,
        salt: u32,
        filter: &'a mut [u8],
        cells: &'a mut [u8],
    ) -> Result<Flowset<'a>, Trouble> {
        encoder::start(z, filter, cells)?;
        Ok(Flowset {
            z,
            salt,
            filter,
            cells,
        })
    }

    fn take(&mut self, packet: &[u8]) -> Result<(), Trouble> {
        let (z, salt) = (self.z, self.salt);
        Ok(encoder::packet(z, salt, self.filter, self.cells, packet)?)
    }

    // Takes a packet so many times, or until it is refused for its own sake (6, 7), which is said.
    fn take_often(&mut self, said: &mut impl Write, packet: &[u8], times: u32) -> io::Result<()> {
        for _ in 0..times {
            if let Err(trouble) = self.take(packet) {
                return say(said, trouble);
            }
        }
        Ok(())
    }

    // Takes each packet as often as stands before it.
    fn take_all(&mut self, said: &mut impl Write, mut packets: Packets<4>) -> io::Result<()> {
        for (times, packet) in &mut packets {
            self.take_often(said, packet, u32::from_be_bytes(*times))?;
        }
        if packets.rest.is_empty() {
            return Ok(());
        }
        say(said, Trouble::CutShort)
    }

    fn seal(&self, slot: u32, image: &mut [u8]) -> Result<(), Trouble> {
        let (z, salt) = (self.z, self.salt);
        Ok(sealing::seal(z, salt, slot, self.filter, self.cells, image)?)
    }
}

// Writes the image of an input.
fn encode(out: &mut impl Write, said: &mut impl Write, input: &[u8]) -> Result<(), Failure> {
    let (head, rest) = input.split_first_chunk::<12>().ok_or(Trouble::Head)?;
    let z = source::sizes_in(head);
    let lengths = Lengths::try_from(z)?;
    let (salt, slot) = (fields::long_at(head, 4), fields::long_at(head, 8));
    let (mut filter, mut cells, mut image) = ([0u8; FILTER], [0u8; CELLS], [0u8; IMAGE]);
    let filter = &mut filter[..lengths.filter];
    let cells = &mut cells[..lengths.cells];
    let image = &mut image[..lengths.image];
    let mut flowset = Flowset::start(z, salt, filter, cells)?;
    flowset.take_all(said, Packets { rest })?;
    flowset.seal(slot, image)?;
    out.write_all(image)?;
    Ok(())
}

fn main(rt: HostRuntime) -> io::Result<()> {
    let mut input = [0u8; ROOM];
    let n = source::read_full(&mut rt.stdin(), &mut input)?;
    match encode(&mut rt.stdout(), &mut rt.stderr(), &input[..n]) {
        Ok(()) => Ok(()),
        Err(Failure::Trouble(trouble)) => say(&mut rt.stderr(), trouble),
        Err(Failure::Io(error)) => Err(error),
    }
}
