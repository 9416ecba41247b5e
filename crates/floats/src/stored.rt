// Numbers and values in bytes, the lowest first.
ghost use Rattle.std.specs.Prelude.{◌≡◌, ℕ, ◌+◌, ◌≤◌, List, length};
ghost use Rattle.std.proofs.Math.Seq.{slice};
ghost use Rattle.std.proofs.lemmas.List.Edits.{sets};
ghost use Rattle.laws.specs.Bytes.{number, bytes};
ghost use Rattle.floats.specs.Floats.{float_of, float_bytes};

use crate::{of_bits, to_bits};

// What stands in N bytes.
pub trait Stored<const N: usize>: Copy {
    ghost value_of: { List ℕ → Self };

    ghost bytes_of: { Self → List ℕ };

    fn from_bytes(bytes: &[u8; N]) -> Self
        ensures { result ≡ value_of bytes.now };

    fn to_bytes(self) -> [u8; N]
        ensures { result ≡ bytes_of self };
}

impl Stored<2> for u16 {
    ghost value_of = { number };

    ghost bytes_of = { bytes 2 };

    fn from_bytes(bytes: &[u8; 2]) -> u16 {
        u16::from_le_bytes(*bytes)
    }

    fn to_bytes(self) -> [u8; 2] {
        self.to_le_bytes()
    }
}

impl Stored<4> for u32 {
    ghost value_of = { number };

    ghost bytes_of = { bytes 4 };

    fn from_bytes(bytes: &[u8; 4]) -> u32 {
        u32::from_le_bytes(*bytes)
    }

    fn to_bytes(self) -> [u8; 4] {
        self.to_le_bytes()
    }
}

impl Stored<8> for u64 {
    ghost value_of = { number };

    ghost bytes_of = { bytes 8 };

    fn from_bytes(bytes: &[u8; 8]) -> u64 {
        u64::from_le_bytes(*bytes)
    }

    fn to_bytes(self) -> [u8; 8] {
        self.to_le_bytes()
    }
}

impl Stored<8> for f64 {
    ghost value_of = { float_of };

    ghost bytes_of = { float_bytes };

    fn from_bytes(bytes: &[u8; 8]) -> f64 {
        of_bits(u64::from_le_bytes(*bytes))
    }

    fn to_bytes(self) -> [u8; 8] {
        to_bits(self).to_le_bytes()
    }
}

// Bytes themselves.
impl<const N: usize> Stored<N> for [u8; N] {
    ghost value_of = { λ l. l };

    ghost bytes_of = { λ l. l };

    fn from_bytes(bytes: &[u8; N]) -> [u8; N] {
        *bytes
    }

    fn to_bytes(self) -> [u8; N] {
        self
    }
}

// What stands in the N bytes from `at` on. At a place of a longer list, for a record's fields stand at fixed places.
pub fn get<T: Stored<N>, const N: usize>(s: &[u8], at: usize) -> T
    requires { at + N ≤ length s.now }
    ensures { result ≡ T.value_of (slice at (at + N) s.now) }
{
    let Some(bytes) = s[at..at + N].as_array() else {
        unreachable!()
    };
    T::from_bytes(bytes)
}

// The N bytes of a value from `at` on, as `get` reads them; all else as before.
pub fn put<T: Stored<N>, const N: usize>(out: &mut [u8], at: usize, x: T)
    requires { at + N ≤ length out.old }
    ensures { out.new ≡ sets out.old at (T.bytes_of x) }
{
    out[at..at + N].copy_from_slice(&x.to_bytes());
}
