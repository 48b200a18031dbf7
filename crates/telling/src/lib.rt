// What a test program needs: writing bytes in hexadecimal, and filling buffers from a generator. It rests on laws, hex and std's io.
#![tactic(auto)]

ghost use Rattle.std.specs.Prelude.{◌≡◌, length, OnOk};
ghost use Rattle.std.specs.Io.KnownBytes.{Appends};
ghost use Rattle.hex.specs.Hex.{encode_lower};
ghost use Rattle.telling.specs.Shown.{shown};
ghost use Rattle.telling.specs.Generator.{next_number, after_numbers, random_bytes};

use std::io;
use std::io::Write;

// ---- writing

// Bytes in hexadecimal, 2,048 of them at a write: each write is a call of the system.
pub fn say_hex<W: Write>(out: &mut W, bytes: &[u8]) -> io::Result<()>
    ensures { OnOk result (Appends (W.contents out.old) (W.contents out.new) (encode_lower bytes.now)) }
{
    let mut room = [0u8; 4096];
    for chunk in bytes.chunks(2048) {
        let text = &mut room[..2 * chunk.len()];
        hex::encode_to_slice(chunk, text).unwrap();
        out.write_all(text)?;
    }
    Ok(())
}

// A space; then bytes in hexadecimal, or a dot where there are none.
pub fn say_buffer<W: Write>(out: &mut W, bytes: &[u8]) -> io::Result<()>
    ensures { OnOk result (Appends (W.contents out.old) (W.contents out.new) (shown bytes.now)) }
{
    if bytes.is_empty() {
        return out.write_all(b" .");
    }
    out.write_all(b" ")?;
    say_hex(out, bytes)
}

// ---- filling

// The next number of the generator.
fn next_number(x: u32) -> u32
    ensures { result ≡ next_number x }
{
    x.wrapping_mul(1664525).wrapping_add(1013904223)
}

// Fills a buffer from the generator, and gives the generator's state afterwards.
pub fn fill_random(s: &mut [u8], seed: u32) -> u32
    ensures { (result ≡ after_numbers (length s.old) seed) × (s.new ≡ random_bytes (length s.old) seed) }
{
    let mut x = seed;
    for b in s.iter_mut() {
        x = next_number(x);
        *b = (x >> 24) as u8;
    }
    x
}
