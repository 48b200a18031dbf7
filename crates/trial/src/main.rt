// A program for tests: it reads requests on standard input, makes the call that each names, and writes a line with all that the call left.
// tests/independent answers the same requests by code of its own, and compares. tests/PROTOCOL.md has the requests.
#![tactic(auto)]

ghost use Rattle.std.specs.Prelude.{◌≤◌};
ghost use Rattle.trial.specs.declared.TheConstants.{FILTER, CELLS, IMAGE};

use hash::{Fnv, Placing};
use layout::{Shape, Sizes};
use packet::Key;
use reading::Image;
use source::Packets;
use std::io::{Read, Write};
use std::{fmt, io};

// The longest payload.
const ROOM: usize = 65536;

// The longest buffers of request 4.
const FILTER: usize = 8192;

const CELLS: usize = 32768;

const IMAGE: usize = 41984;

// Why a request is not answered.
#[derive(Clone, Copy)]
enum Unanswered {
    Op,
    Length,
    Mode,
}

// The whole line, in one write.
impl fmt::Display for Unanswered {
    fn fmt<W: fmt::Write>(&self, f: &mut fmt::Formatter<W>) -> fmt::Result {
        f.write_str(match self {
            Unanswered::Op => "op\n",
            Unanswered::Length => "length\n",
            Unanswered::Mode => "mode\n",
        })
    }
}

// What the buffers of request 4 hold before the calls, as a generator fills them.
#[derive(Clone, Copy)]
enum Mode {
    // all of them random, and start is called
    Started,
    // all of them random
    Random,
    // filter and cells all 0
    Zeros,
    // filter and cells all 255
    Ones,
    // all of them random, but that the zero byte of every cell but one is 0
    Spared,
}

impl TryFrom<u8> for Mode {
    type Error = Unanswered;

    fn try_from(number: u8) -> Result<Mode, Unanswered> {
        match number {
            0 => Ok(Mode::Started),
            1 => Ok(Mode::Random),
            2 => Ok(Mode::Zeros),
            3 => Ok(Mode::Ones),
            4 => Ok(Mode::Spared),
            _ => Err(Unanswered::Mode),
        }
    }
}

// Whether whole packets, each after its length, make up all of the bytes.
fn are_whole(bytes: &[u8]) -> bool {
    let mut packets: Packets<0> = Packets { rest: bytes };
    for _ in &mut packets {}
    packets.rest.is_empty()
}

// Request 3: a key's cells and filter bits.
#[derive(Clone, Copy)]
struct Places<'a> {
    z: Sizes,
    salt: u32,
    key: &'a [u8],
}

impl<'a> TryFrom<&'a [u8]> for Places<'a> {
    type Error = Unanswered;

    fn try_from(payload: &'a [u8]) -> Result<Places<'a>, Unanswered> {
        let payload: &[u8; 21] = payload.as_array().ok_or(Unanswered::Length)?;
        Ok(Places {
            z: source::sizes_in(payload),
            salt: fields::long_at(payload, 4),
            key: &payload[8..],
        })
    }
}

// Request 4: an encoder's run, sealed, in buffers of these lengths.
#[derive(Clone, Copy)]
struct Run<'a> {
    z: Sizes,
    salt: u32,
    slot: u32,
    filter: usize,
    cells: usize,
    image: usize,
    mode: Mode,
    seed: u32,
    packets: &'a [u8],
    ghost fits: { (filter ≤ FILTER) × (cells ≤ CELLS) × (image ≤ IMAGE) },
}

impl<'a> TryFrom<&'a [u8]> for Run<'a> {
    type Error = Unanswered;

    fn try_from(payload: &'a [u8]) -> Result<Run<'a>, Unanswered> {
        let (head, packets) = payload.split_first_chunk::<23>().ok_or(Unanswered::Length)?;
        let filter = usize::from(fields::short_at(head, 12));
        let cells = usize::from(fields::short_at(head, 14));
        let image = usize::from(fields::short_at(head, 16));
        if FILTER < filter || CELLS < cells || IMAGE < image || !are_whole(packets) {
            return Err(Unanswered::Length);
        }
        Ok(Run {
            z: source::sizes_in(head),
            salt: fields::long_at(head, 4),
            slot: fields::long_at(head, 8),
            filter,
            cells,
            image,
            mode: Mode::try_from(head[18])?,
            seed: fields::long_at(head, 19),
            packets,
        })
    }
}

// Request 5: an image, read as one of the slot that is wanted.
#[derive(Clone, Copy)]
struct Wanted<'a> {
    slot: u32,
    image: &'a [u8],
}

impl<'a> TryFrom<&'a [u8]> for Wanted<'a> {
    type Error = Unanswered;

    fn try_from(payload: &'a [u8]) -> Result<Wanted<'a>, Unanswered> {
        let (slot, image) = payload.split_first_chunk::<4>().ok_or(Unanswered::Length)?;
        if IMAGE < image.len() {
            return Err(Unanswered::Length);
        }
        let slot = u32::from_be_bytes(*slot);
        Ok(Wanted { slot, image })
    }
}

// A request, as its number and its payload say it.
#[derive(Clone, Copy)]
enum Request<'a> {
    Hash(&'a [u8]),
    Key(&'a [u8]),
    Places(Places<'a>),
    Encoder(Run<'a>),
    Read(Wanted<'a>),
}

impl<'a> TryFrom<(u8, &'a [u8])> for Request<'a> {
    type Error = Unanswered;

    fn try_from((number, payload): (u8, &'a [u8])) -> Result<Request<'a>, Unanswered> {
        match number {
            1 => Ok(Request::Hash(payload)),
            2 => Ok(Request::Key(payload)),
            3 => Ok(Request::Places(Places::try_from(payload)?)),
            4 => Ok(Request::Encoder(Run::try_from(payload)?)),
            5 => Ok(Request::Read(Wanted::try_from(payload)?)),
            _ => Err(Unanswered::Op),
        }
    }
}

// ---- requests 1, 2, 3 and 5

fn answer_hash(out: &mut impl Write, bytes: &[u8]) -> io::Result<()> {
    let state = Fnv::new().bytes(bytes).state;
    writeln!(out, "{state:08x}")
}

// A key's bytes, and the key that those bytes give back.
fn answer_key(out: &mut impl Write, packet: &[u8]) -> io::Result<()> {
    let Some(key) = packet::key_of(packet) else {
        return writeln!(out, "6");
    };
    let bytes = <[u8; 13]>::from(key);
    let back = Key::from(&bytes);
    write!(out, "0 ")?;
    telling::say_hex(out, &bytes)?;
    writeln!(
        out,
        " {} {} {} {} {}",
        back.source, back.destination, back.sport, back.dport, back.protocol
    )
}

fn answer_places(out: &mut impl Write, asked: Places) -> io::Result<()> {
    let Some(shape) = Shape::new(layout::ipv4(), asked.z) else {
        return writeln!(out, "3");
    };
    let placing = Placing::new(shape, asked.salt);
    let cells = placing.cells_of(asked.key);
    let bits = placing.bits_of(asked.key);
    let z = asked.z;
    write!(out, "0")?;
    for place in cells.at.iter().take(z.k).chain(bits.at.iter().take(z.kf)) {
        write!(out, " {place}")?;
    }
    writeln!(out)
}

fn answer_read(out: &mut impl Write, wanted: Wanted) -> io::Result<()> {
    match reading::read(wanted.image, wanted.slot) {
        Ok(Image { sizes: z, salt }) => writeln!(out, "0 {} {} {} {} {salt}", z.kf, z.f, z.k, z.q),
        Err(e) => writeln!(out, "{} {}", e.number(), e.block()),
    }
}

// ---- request 4

// Clears the zero byte of every cell but one.
fn clear_zero_bytes(cells: &mut [u8], spared: u32) {
    let spared = spared as usize;
    for (c, cell) in cells.chunks_mut(20).enumerate() {
        if c != spared
            && let Some(zero) = cell.get_mut(13)
        {
            *zero = 0;
        }
    }
}

impl Run<'_> {
    // What filter and cells hold before the calls; the generator's state for the image.
    fn fill(&self, filter: &mut [u8], cells: &mut [u8]) -> u32 {
        match self.mode {
            Mode::Started | Mode::Random => {
                let x = telling::fill_random(filter, self.seed);
                telling::fill_random(cells, x)
            }
            Mode::Zeros => {
                filter.fill(0);
                cells.fill(0);
                self.seed
            }
            Mode::Ones => {
                filter.fill(255);
                cells.fill(255);
                self.seed
            }
            Mode::Spared => {
                let x = telling::fill_random(filter, self.seed);
                let y = telling::fill_random(cells, x);
                clear_zero_bytes(cells, self.slot);
                y
            }
        }
    }

    // The calls, with their answers. The three buffers are no struct: a loan in it through a method is not covered by the borrow checker.
    fn call(
        &self,
        out: &mut impl Write,
        filter: &mut [u8],
        cells: &mut [u8],
        image: &mut [u8],
    ) -> io::Result<()> {
        match self.mode {
            Mode::Started => {
                let refusal = encoder::start(self.z, filter, cells).err();
                write!(out, "{}", refusal.map_or(0, |e| e.number()))?;
            }
            _ => write!(out, "-")?,
        }
        let packets: Packets<0> = Packets { rest: self.packets };
        for (_, packet) in packets {
            let refusal = encoder::packet(self.z, self.salt, filter, cells, packet).err();
            write!(out, " {}", refusal.map_or(0, |e| e.number()))?;
        }
        let refusal = sealing::seal(self.z, self.salt, self.slot, filter, cells, image).err();
        write!(out, " {}", refusal.map_or(0, |e| e.number()))
    }

    // In buffers of the lengths asked for: what they hold before, the calls, what they hold after.
    fn answer(&self, out: &mut impl Write) -> io::Result<()> {
        let (mut filter, mut cells, mut image) = ([0u8; FILTER], [0u8; CELLS], [0u8; IMAGE]);
        let filter = &mut filter[..self.filter];
        let cells = &mut cells[..self.cells];
        let image = &mut image[..self.image];
        let x = self.fill(filter, cells);
        telling::fill_random(image, x);
        self.call(out, filter, cells, image)?;
        telling::say_buffer(out, filter)?;
        telling::say_buffer(out, cells)?;
        telling::say_buffer(out, image)?;
        writeln!(out)
    }
}

// ---- the program

fn answer(out: &mut impl Write, number: u8, payload: &[u8]) -> io::Result<()> {
    match Request::try_from((number, payload)) {
        Ok(Request::Hash(bytes)) => answer_hash(out, bytes),
        Ok(Request::Key(packet)) => answer_key(out, packet),
        Ok(Request::Places(asked)) => answer_places(out, asked),
        Ok(Request::Encoder(run)) => run.answer(out),
        Ok(Request::Read(wanted)) => answer_read(out, wanted),
        Err(unanswered) => write!(out, "{unanswered}"),
    }
}

// The next request's number and payload, if there is a whole one.
fn next_request<'a>(
    input: &mut impl Read,
    room: &'a mut [u8],
) -> io::Result<Option<(u8, &'a [u8])>> {
    let mut head = [0u8; 4];
    if source::read_full(input, &mut head)? < 4 {
        return Ok(None);
    }
    let [number, high, middle, low] = head;
    let length = u32::from_be_bytes([0, high, middle, low]) as usize;
    let Some(payload) = room.get_mut(..length) else {
        return Ok(None);
    };
    if source::read_full(input, payload)? < length {
        return Ok(None);
    }
    Ok(Some((number, payload)))
}

fn main(rt: HostRuntime) -> io::Result<()> {
    let mut input = rt.stdin();
    let mut out = rt.stdout();
    let mut room = [0u8; ROOM];
    for _ in 0..u64::MAX {
        let Some((number, payload)) = next_request(&mut input, &mut room)? else {
            break;
        };
        answer(&mut out, number, payload)?;
    }
    Ok(())
}
