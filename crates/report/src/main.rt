// The printing program: standard input is the wanted slot and the image, and standard output the lines that `printing::print` writes.
// An image has at most 40,960 bytes; one byte more is read, so that a longer input is seen as such.
#![tactic(auto)]

use std::io;
use std::io::Write;

fn main(rt: HostRuntime) -> io::Result<()> {
    let mut input = [0u8; 40965];
    let mut out = [0u8; printing::MOST];
    let n = source::read_full(&mut rt.stdin(), &mut input)?;
    let written = printing::print(&input[..n], &mut out);
    rt.stdout().write_all(&out[..written])
}
