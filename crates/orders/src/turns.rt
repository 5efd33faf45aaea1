// The ways to turn a block.
ghost use Rattle.std.specs.Prelude.{◌≡◌, ℕ, List, length};
ghost use Rattle.drivers.specs.Layers.{by_bytes, by_bits, mirror};
ghost use Rattle.drivers.proofs.Turning.{bytes-long, bytes_twice, bits-long, bits_twice};

/// A way to turn a block that keeps its length, and that undoes itself.
pub trait Turn {
    ghost turned: { List ℕ → List ℕ };

    ghost long: { (b : List ℕ) → length (turned b) ≡ length b };

    ghost twice: { (b : List ℕ) → turned (turned b) ≡ b };

    fn turn(&self, block: &mut [u8])
        ensures after { block.new ≡ turned block.old };
}

/// The bytes of a block from last to first.
#[derive(Clone, Copy, Debug, PartialEq, Eq)]
pub struct Bytes;

impl Turn for Bytes {
    ghost turned = { by_bytes };

    ghost long = { bytes-long };

    ghost twice = { bytes_twice };

    fn turn(&self, block: &mut [u8]) {
        block.reverse();
    }
}

/// The bits of each byte from last to first.
#[derive(Clone, Copy, Debug, PartialEq, Eq)]
pub struct Bits;

impl Turn for Bits {
    ghost turned = { by_bits };

    ghost long = { bits-long };

    ghost twice = { bits_twice };

    fn turn(&self, block: &mut [u8]) {
        for byte in block.iter_mut() {
            *byte = mirrored(*byte);
        }
    }
}

fn mirrored(byte: u8) -> u8
    ensures value { result ≡ mirror byte }
{
    byte.reverse_bits()
}
