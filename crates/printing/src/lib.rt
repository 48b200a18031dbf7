// The printing program as a function from bytes to bytes: it opens the image that was read, settles the session and writes the lines.
// It rests on session for the calls, on records for a listed flow's key and on lines for the bytes of a line.
#![tactic(auto)]

ghost use Rattle.std.specs.Prelude.{◌≡◌, ◌+◌, ◌*◌, ◌≤◌, ◌<◌, length};
ghost use Rattle.std.proofs.lemmas.List.Edits.{sets};
ghost use Rattle.laws.specs.Upto.{join_upto};
ghost use Rattle.layout.specs.Sizes.{ipv4_layout, filter_bytes, table_cells};
ghost use Rattle.reading.specs.Read.{read_of};
ghost use Rattle.list.specs.Records.{records};
ghost use Rattle.list.specs.Seen.{list_seen};
ghost use Rattle.table.specs.Table.{tab};
ghost use Rattle.room.specs.Memory.{memory, Rooms};
ghost use Rattle.lines.specs.Text.{Put, refused_line};
ghost use Rattle.lines.specs.Page.{Holds, Adds};
ghost use Rattle.printing.specs.Print.{most_written, record_line, listed_lines, session_lines, image_lines, printed, sizes_read, Largest};

use layout::{Shape, Sizes};
use lines::Page;
use list::FoundRef;
use reading::{Image, ReadError};
use room::Session;

// The most bytes that are written: a first line of at most 61, and at most 3,072 lines of at most 59.
pub const MOST: usize = 181309;

// ---- listed flows

// Writes the line of record i.
fn put_record(page: &mut Page<'_>, i: usize, found: FoundRef<'_>)
    requires { Holds page.old (record_line (list_seen found) i)
        × (i * 13 + 13 ≤ length found.keys.now) × (i < length found.counts.now) × (i < length found.flags.now) }
    ensures { Adds page.old page.new (record_line (list_seen found.entry) i) }
{
    let count = (found.flags[i] % 2 == 1).then_some(found.counts[i]);
    page.flow(records::key_at(i, found.keys), count);
}

// Writes the lines of the first n records.
fn put_records(page: &mut Page<'_>, n: usize, found: FoundRef<'_>)
    requires { Holds page.old (join_upto n (record_line (list_seen found)))
        × (n * 13 ≤ length found.keys.now) × (n ≤ length found.counts.now) × (n ≤ length found.flags.now) }
    ensures { Adds page.old page.new (join_upto n (record_line (list_seen found.entry))) }
{
    for i in 0..n {
        put_record(page, i, found);
    }
}

// Writes all lines where n flows are listed.
pub fn put_listed(
    out: &mut [u8],
    slot: u32,
    salt: u32,
    n: usize,
    xors: &[u8],
    flows: &[u16],
    packets: &[u32],
    keys: &[u8],
    counts: &[u32],
    flags: &[u8],
) -> usize
    requires { (most_written ≤ length out.old) × (n ≤ 3072) × (length flows.now ≤ 1536) × (n * 13 ≤ length keys.now)
        × (n ≤ length counts.now) × (n ≤ length flags.now) }
    ensures { Put out.old out.new 0 result
        (listed_lines slot salt n xors.now flows.now packets.now
        (records keys.now counts.now flags.now)) }
{
    let report = summary::report_of(n, xors, flows, packets, flags);
    let mut page = Page::new(out);
    page.head(slot, salt, report);
    put_records(
        &mut page,
        n,
        FoundRef {
            keys,
            counts,
            flags,
        },
    );
    page.written()
}

// ---- refusals

// Writes the line of a refusal alone.
fn refuse(out: &mut [u8], number: u32) -> usize
    requires { most_written ≤ length out.old }
    ensures { Put out.old out.new 0 result (refused_line number) }
{
    let mut page = Page::new(out);
    page.refused(number);
    page.written()
}

// ---- a session, an image: the slices go on one by one, as `session::settle` and `session::open` take them, and `elderflute_lines` lends them to `put_listed`

// Settles a session and writes its lines.
fn print_session(
    s: Session,
    filter: &[u8],
    xors: &mut [u8],
    flows: &mut [u16],
    packets: &mut [u32],
    unknowns: &mut [u16],
    positions: &mut [u16],
    marks: &mut [u64],
    keys: &mut [u8],
    counts: &mut [u32],
    flags: &mut [u8],
    out: &mut [u8],
) -> usize
    requires { most_written ≤ length out.old }
    ensures { Put out.old out.new 0 result (session_lines s (memory filter.now
        (tab xors.old flows.old unknowns.old positions.old marks.old)
        packets.old (records keys.old counts.old flags.old))) }
{
    match session::settle(
        s, filter, xors, flows, packets, unknowns, positions, marks, keys, counts, flags,
    ) {
        Ok(listed) => put_listed(
            out, s.slot, s.salt, listed, xors, flows, packets, keys, counts, flags,
        ),
        Err(e) => refuse(out, e.number()),
    }
}

// Opens an image in room of its size, settles it and writes its lines.
fn print_in(
    image: &[u8],
    slot: u32,
    filter: &mut [u8],
    xors: &mut [u8],
    flows: &mut [u16],
    packets: &mut [u32],
    unknowns: &mut [u16],
    positions: &mut [u16],
    marks: &mut [u64],
    keys: &mut [u8],
    counts: &mut [u32],
    flags: &mut [u8],
    out: &mut [u8],
) -> usize
    requires { (most_written ≤ length out.old) × Rooms ipv4_layout (sizes_read (read_of ipv4_layout image.now slot)) (memory filter.old
        (tab xors.old flows.old unknowns.old positions.old marks.old) packets.old (records keys.old counts.old flags.old)) }
    ensures { Put out.old out.new 0 result (image_lines slot image.now) }
{
    match session::open(
        image, slot, filter, xors, flows, packets, unknowns, positions, marks, keys, counts, flags,
    ) {
        Ok(s) => print_session(
            s, filter, xors, flows, packets, unknowns, positions, marks, keys, counts, flags, out,
        ),
        Err(e) => refuse(out, e.number()),
    }
}

// The bytes of a filter: at most those of 16 blocks.
fn filter_room(shape: Shape) -> usize
    ensures { (result ≡ filter_bytes shape.sizes) × (result ≤ 7680) }
{
    shape.filter_bytes()
}

// The cells of a table of IPv4 keys: at most 1,536.
fn cell_room(shape: Shape) -> usize
    requires { shape.layout ≡ ipv4_layout }
    ensures { (result ≡ table_cells ipv4_layout shape.sizes) × (result ≤ 1536) }
{
    shape.table_cells()
}

// Lends as much of the largest room as an image of this shape asks for.
fn print_parts(
    shape: Shape,
    image: &[u8],
    slot: u32,
    filter: &mut [u8],
    xors: &mut [u8],
    flows: &mut [u16],
    packets: &mut [u32],
    unknowns: &mut [u16],
    positions: &mut [u16],
    marks: &mut [u64],
    keys: &mut [u8],
    counts: &mut [u32],
    flags: &mut [u8],
    out: &mut [u8],
) -> usize
    requires { (most_written ≤ length out.old) × (shape.layout ≡ ipv4_layout) × (shape.sizes ≡ sizes_read (read_of ipv4_layout image.now slot)) × Largest (memory filter.old
        (tab xors.old flows.old unknowns.old positions.old marks.old) packets.old (records keys.old counts.old flags.old)) }
    ensures { Put out.old out.new 0 result (image_lines slot image.now) }
{
    let bytes = filter_room(shape);
    let cells = cell_room(shape);
    let width = cells * 13;
    let words = (cells + 63) / 64;
    let most = 2 * cells;
    let length = most * 13;
    print_in(
        image,
        slot,
        &mut filter[..bytes],
        &mut xors[..width],
        &mut flows[..cells],
        &mut packets[..cells],
        &mut unknowns[..cells],
        &mut positions[..cells],
        &mut marks[..words],
        &mut keys[..length],
        &mut counts[..most],
        &mut flags[..most],
        out,
    )
}

// The sizes by which room is made for what was read.
fn sizes_read(read: Result<Image, ReadError>) -> Sizes
    ensures { result ≡ sizes_read read }
{
    match read {
        Ok(image) => image.sizes,
        Err(_) => Sizes {
            kf: 1,
            f: 1,
            k: 2,
            q: 1,
        },
    }
}

// Writes the lines of an image that is wanted of a slot.
fn print_image(image: &[u8], slot: u32, out: &mut [u8]) -> usize
    requires { most_written ≤ length out.old }
    ensures { Put out.old out.new 0 result (image_lines slot image.now) }
{
    let shape = Shape {
        layout: layout::ipv4(),
        sizes: sizes_read(reading::read(image, slot)),
    };
    let mut filter = [0u8; 7680];
    let mut xors = [0u8; 19968];
    let mut flows = [0u16; 1536];
    let mut packets = [0u32; 1536];
    let mut unknowns = [0u16; 1536];
    let mut positions = [0u16; 1536];
    let mut marks = [0u64; 24];
    let mut keys = [0u8; 39936];
    let mut counts = [0u32; 3072];
    let mut flags = [0u8; 3072];
    print_parts(
        shape,
        image,
        slot,
        &mut filter,
        &mut xors,
        &mut flows,
        &mut packets,
        &mut unknowns,
        &mut positions,
        &mut marks,
        &mut keys,
        &mut counts,
        &mut flags,
        out,
    )
}

// Writes all that the printing program prints for its standard input, and answers how many bytes these are.
pub fn print(input: &[u8], out: &mut [u8]) -> usize
    requires { most_written ≤ length out.old }
    ensures { (result ≡ length (printed input.now))
        × (out.new ≡ sets out.old 0 (printed input.now)) × (result ≤ length out.old) }
{
    if input.len() < 4 {
        return refuse(out, 1);
    }
    print_image(&input[4..], fields::long_at(input, 0), out)
}
