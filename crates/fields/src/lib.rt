// Numbers and runs of bytes in lent byte slices: read, written, XORed in, tested for zero. It rests on laws.
#![tactic(auto)]

ghost use Rattle.std.specs.Prelude.{◌≡◌, ◌+◌, ◌≤◌, length};
ghost use Rattle.laws.specs.Xor.{xor_bytes};
ghost use Rattle.laws.specs.Zeros.{all_zero};
ghost use Rattle.fields.specs.Field.{field, with_field, xored_at};

// Two widths, a line each: std has no trait over its conversions, and one function over both would take a trait, two impls and laws.

// The number in the 2 bytes from place `at` on.
pub fn short_at(s: &[u8], at: usize) -> u16
    requires { at + 2 ≤ length s.now }
    ensures { result ≡ field 2 s.now at }
{
    u16::from_be_bytes([s[at], s[at + 1]])
}

// The number in the 4 bytes from place `at` on.
pub fn long_at(s: &[u8], at: usize) -> u32
    requires { at + 4 ≤ length s.now }
    ensures { result ≡ field 4 s.now at }
{
    u32::from_be_bytes([s[at], s[at + 1], s[at + 2], s[at + 3]])
}

// Writes a number into the 2 bytes from place `at` on.
pub fn put_short(s: &mut [u8], at: usize, x: u16)
    requires { at + 2 ≤ length s.old }
    ensures { s.new ≡ with_field 2 s.old at x }
{
    s[at..at + 2].copy_from_slice(&x.to_be_bytes());
}

// Writes a number into the 4 bytes from place `at` on.
pub fn put_long(s: &mut [u8], at: usize, x: u32)
    requires { at + 4 ≤ length s.old }
    ensures { s.new ≡ with_field 4 s.old at x }
{
    s[at..at + 4].copy_from_slice(&x.to_be_bytes());
}

// XORs a run of bytes into another of its length.
pub fn xor_in(s: &mut [u8], bytes: &[u8])
    requires { length s.old ≡ length bytes.now }
    ensures { s.new ≡ xor_bytes s.old bytes.now }
{
    for (i, byte) in bytes.iter().enumerate() {
        s[i] ^= *byte;
    }
}

// XORs a run of bytes into those from place `at` on.
pub fn xor_at(s: &mut [u8], at: usize, bytes: &[u8])
    requires { at + length bytes.now ≤ length s.old }
    ensures { s.new ≡ xored_at s.old at bytes.now }
{
    xor_in(&mut s[at..at + bytes.len()], bytes);
}

// Copies a run of bytes over another of its length. By this loop and not by std's `copy_from_slice`, which makes the archive for C ask for `memmove` where the
// length is not known beforehand.
pub fn copy_in(s: &mut [u8], bytes: &[u8])
    requires { length s.old ≡ length bytes.now }
    ensures { s.new ≡ bytes.now }
{
    for (i, byte) in bytes.iter().enumerate() {
        s[i] = *byte;
    }
}

// Whether every byte is zero. They are ORed together: a way out at the first other one would cost a branch for each.
pub fn is_zero(s: &[u8]) -> bool
    ensures { result ≡ all_zero s.now }
{
    let mut any = 0;
    for byte in s {
        any |= *byte;
    }
    any == 0
}
