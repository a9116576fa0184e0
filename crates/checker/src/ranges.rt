// Ranges of bytes: which are addressable, what is loaded from them, what is written to them. An access
// whose bytes are all addressable has a quick way for each width; any other goes byte by byte.
ghost use Rattle.std.specs.Prelude.{◌≡◌, cond, ◌+◌, ◌≤◌, length, get_or};
ghost use Rattle.machine.specs.Ranges.{is_addressable, all_addressable, loaded, loaded_where, filled, stored};
ghost use Rattle.machine.specs.Instructions.{bytes_of, widened};
ghost use Rattle.machine.specs.Machine.{addressable_mark};
ghost use Rattle.rules.specs.Bytes.{joined};

use image::{Widening, Width};
use rules::bytes::{byte, join4, swiden, zwiden};

// A of an addressable byte, and of an unaddressable one; V of an undefined byte, and of a defined one:
// bytes, as the buffers that C lends hold them.
pub const ADDRESSABLE: u8 = 1;

pub const UNADDRESSABLE: u8 = 0;

pub const UNDEFINED: u8 = 255;

pub const DEFINED: u8 = 0;

// What an unaddressable byte loads as: its data, and its V.
const BLOCKED_BYTE: u8 = 0;

// How many bytes an access has.
pub fn size_of(width: Width) -> usize
    ensures { result ≡ bytes_of width }
{
    match width {
        Width::Byte => 1,
        Width::Half => 2,
        Width::Word => 4,
    }
}

// The bytes of an access, zero-widened. A case for each width: one copy of `size_of` bytes, here and in
// `store_all`, is a call of memcpy, as its length is no constant, and tried alone takes twice the time or more.
#[tactic(auto, unfolding(rules::specs::Bytes::joined))]
fn load_all(width: Width, s: &[u8], at: u32) -> u32
    requires { at + bytes_of width ≤ length s.now }
    ensures { result ≡ loaded s.now at (bytes_of width) }
{
    let i = at as usize;
    match width {
        Width::Byte => join4(s[i], 0, 0, 0),
        Width::Half => join4(s[i], s[i + 1], 0, 0),
        Width::Word => join4(s[i], s[i + 1], s[i + 2], s[i + 3]),
    }
}

// ---- which are addressable
pub fn is_addressable(a: &[u8], at: usize) -> bool
    ensures { result ≡ is_addressable a.now at }
{
    a.get(at).is_some_and(|mark| *mark == ADDRESSABLE)
}

// The A bytes of an access, all addressable, as a word. Three constants, as a sum of bytes is no plainer.
#[tactic(auto, unfolding(rules::specs::Bytes::joined))]
fn all_marked(width: Width) -> u32
    ensures { result ≡ joined (bytes_of width) (λ k. addressable_mark) }
{
    match width {
        Width::Byte => 0x01,
        Width::Half => 0x0101,
        Width::Word => 0x0101_0101,
    }
}

// Whether every byte of an access is addressable.
fn all_addressable_of(width: Width, a: &[u8], at: u32) -> bool
    ensures { result ≡ all_addressable a.now at (bytes_of width) }
{
    at as usize + size_of(width) <= a.len() && load_all(width, a, at) == all_marked(width)
}

// The same. Each case names its width, so that the compiler makes a piece of code for it alone.
pub fn all_addressable(width: Width, a: &[u8], at: u32) -> bool
    ensures { result ≡ all_addressable a.now at (bytes_of width) }
{
    match width {
        Width::Byte => all_addressable_of(Width::Byte, a, at),
        Width::Half => all_addressable_of(Width::Half, a, at),
        Width::Word => all_addressable_of(Width::Word, a, at),
    }
}

// ---- what is loaded
// The byte at an address, if it is addressable.
fn byte_at(a: &[u8], s: &[u8], at: usize) -> u8
    ensures { result ≡ cond (is_addressable a.now at) (get_or s.now at 0) 0 }
{
    match s.get(at) {
        Some(x) if is_addressable(a, at) => *x,
        _ => BLOCKED_BYTE,
    }
}

// The bytes of an access, with 0 for each unaddressable one.
fn load_some(width: Width, a: &[u8], s: &[u8], at: u32) -> u32
    ensures { result ≡ loaded_where a.now s.now at (bytes_of width) }
{
    let mut x = 0;
    for k in 0..size_of(width) {
        x |= zwiden(byte_at(a, s, at as usize + k)) << (8 * k as u32);
    }
    x
}

// The same; whole: they are all addressable.
pub fn load(whole: bool, width: Width, a: &[u8], s: &[u8], at: u32) -> u32
    requires { (whole ≡ all_addressable a.now at (bytes_of width)) × (length s.now ≡ length a.now) }
    ensures { result ≡ loaded_where a.now s.now at (bytes_of width) }
{
    if whole {
        load_all(width, s, at)
    } else {
        load_some(width, a, s, at)
    }
}

// The word that a load makes of its bytes, of data and of V bits alike.
pub fn widen(width: Width, widening: Widening, x: u32) -> u32
    ensures { result ≡ widened widening (bytes_of width) x }
{
    match widening {
        Widening::Zero => x,
        Widening::Sign => swiden(size_of(width) as u32, x),
    }
}

// ---- what is written
// The low bytes of x, to the bytes of an access.
#[tactic(auto, unfolding(machine::specs::Ranges::written))]
pub fn store_all(width: Width, x: u32, s: &mut [u8], at: u32)
    requires { at + bytes_of width ≤ length s.old }
    ensures { s.new ≡ stored x s.old at (bytes_of width) }
{
    let i = at as usize;
    match width {
        Width::Byte => {
            s[i] = byte(x, 0);
        }
        Width::Half => {
            s[i] = byte(x, 0);
            s[i + 1] = byte(x, 1);
        }
        Width::Word => {
            s[i] = byte(x, 0);
            s[i + 1] = byte(x, 1);
            s[i + 2] = byte(x, 2);
            s[i + 3] = byte(x, 3);
        }
    }
}

// So many bytes from an address on become x.
pub fn fill(x: u8, s: &mut [u8], at: usize, size: usize)
    requires { at + size ≤ length s.old }
    ensures { s.new ≡ filled x s.old at size }
{
    for k in 0..size {
        s[at + k] = x;
    }
}
