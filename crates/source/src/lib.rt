// Reading a stream into a fixed buffer, which the three programs do, and what two of them find in it: sizes and packets. It rests on layout and std's io.
#![tactic(auto)]

ghost use Rattle.std.specs.Prelude.{◌≡◌, ◌≤◌, ◌<◌, length, take, IfOk, MatchOption};
ghost use Rattle.std.specs.Io.KnownBytes.{Consumes, IsAtEnd};
ghost use Rattle.std.specs.Iterator.{at_most};
ghost use Rattle.source.specs.Packets.{IsCutShort, BeginsWith};
ghost use Rattle.source.specs.Sizes.{sizes_in};

use layout::Sizes;
use std::io;
use std::io::Read;

// Reads until the buffer is full or the input ends, and gives how many bytes stand at the buffer's start. Of a reader whose bytes are known
// they are the next ones, and where they do not fill the buffer it has no more. Of the bytes after them std's `read` says nothing.
pub fn read_full<R: Read>(input: &mut R, buffer: &mut [u8]) -> io::Result<usize>
    ensures within { IfOk result (λ n. n ≤ length buffer.new) }
    ensures bytes { IfOk result (λ n. Consumes (R.remaining input.old) (R.remaining input.new) (take n buffer.new)) }
    ensures end { IfOk result (λ n. n < length buffer.new → IsAtEnd (R.remaining input.new)) }
{
    // over `read`, since `read_exact` takes an input that ends first for an error, and `read_to_end` needs a heap
    let mut done = 0;
    while done < buffer.len() {
        let n = input.read(&mut buffer[done..])?;
        if n == 0 {
            return Ok(done);
        }
        done += n;
    }
    Ok(done)
}

// The sizes in the first four bytes. Beside `form::sizes_in`, which has a block of 512 bytes before it: one function for both would stand in layout, which knows no bytes.
pub fn sizes_in(bytes: &[u8]) -> Sizes
    requires { 4 ≤ length bytes.now }
    ensures { result ≡ sizes_in bytes.now }
{
    Sizes {
        kf: usize::from(bytes[0]),
        f: usize::from(bytes[1]),
        k: usize::from(bytes[2]),
        q: usize::from(bytes[3]),
    }
}

// Packets one after the other, each after HEAD bytes and its length in 2 bytes. They end at the first that is not whole, which stays in `rest`.
#[derive(Drop)]
pub struct Packets<'a, const HEAD: usize> {
    pub rest: &'a [u8],
}

impl<'a, const HEAD: usize> Iterator for Packets<'a, HEAD> {
    // the HEAD bytes, and the packet
    type Item = (&'a [u8; HEAD], &'a [u8]);

    ghost next_gives = { λ s r t. MatchOption r (IsCutShort HEAD s.rest.now × (t.rest.now ≡ s.rest.now)) (λ x. BeginsWith HEAD s.rest.now x.0.now x.1.now t.rest.now) };

    ghost remaining = { λ s. at_most (length s.rest.now) };

    fn next(&mut self) -> Option<(&'a [u8; HEAD], &'a [u8])> {
        let (head, rest) = self.rest.split_first_chunk::<HEAD>()?;
        let (length, rest) = rest.split_first_chunk::<2>()?;
        let (packet, rest) = rest.split_at_checked(usize::from(u16::from_be_bytes(*length)))?;
        self.rest = rest;
        Some((head, packet))
    }

    // what std's own answers too, which asks in addition that an array of HEAD bytes fits into memory
    fn size_hint(&self) -> (usize, Option<usize>) {
        (0, None)
    }
}
