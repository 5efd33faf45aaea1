// What the programs share that compare with what others worked out: the bytes that a word of a case says.
#![tactic(auto)]

ghost use Rattle.std.specs.Prelude.{◌≡◌, ◌<◌, ◌≤◌, ◌⊎◌, length, Ok, Err, IfSome, IfOk, IfErr};
ghost use Rattle.vectors.specs.declared.faults.WordFault.TheVariants.{NoMemory};
ghost use Rattle.vectors.specs.Words.{is_digit, digit_value, byte_of, in_pairs, wrong_in, pairs_of, bytes_of};

mod faults;

pub use faults::WordFault;
use std::alloc::{AllocError, Global};

#[cfg(test)]
mod tests;

fn digit(b: u8) -> bool
    ensures { result ≡ is_digit b }
{
    matches!(b, b'0'..=b'9' | b'A'..=b'F')
}

// What a digit counts.
fn value(b: u8) -> u8
    ensures value { result ≡ digit_value b }
    ensures bound { result ≤ 15 }
{
    let zero = if b <= b'9' { b'0' } else { b'A' - 10 };
    b.saturating_sub(zero) % 16
}

fn byte(high: u8, low: u8) -> u8
    ensures { result ≡ byte_of high low }
{
    value(high) * 16 + value(low)
}

// The place of the first character that is no digit.
fn wrong(word: &[u8]) -> Option<usize>
    ensures value { result ≡ wrong_in word.now }
    ensures cases { IfSome result (λ i. i < length word.now) }
{
    word.iter().position(|b| !digit(*b))
}

// The byte of each pair of digits.
fn decoded(heap: Global, word: &[u8]) -> Result<Vec<u8>, AllocError>
    ensures { IfOk result (λ v. v.items ≡ in_pairs word.now) }
{
    let (pairs, _) = word.as_chunks::<2>();
    pairs
        .iter()
        .map(|pair| byte(pair[0], pair[1]))
        .collect(heap)
}

fn pairs(heap: Global, word: &[u8]) -> Result<Vec<u8>, WordFault>
    ensures value { IfOk result (λ v. pairs_of word.now (wrong_in word.now) ≡ Ok v.items) }
    ensures cases { IfErr result (λ e. (e ≡ NoMemory) ⊎ (pairs_of word.now (wrong_in word.now) ≡ Err e)) }
{
    if let Some(index) = wrong(word) {
        return Err(WordFault::NotHexadecimal {
            c: word[index],
            index,
        });
    }
    Ok(decoded(heap, word)?)
}

/// The bytes of a word: pairs of hexadecimal digits with capital letters, or `-` for none. A digit that is left over at
/// the end says nothing.
pub fn bytes(heap: Global, word: &str) -> Result<Vec<u8>, WordFault>
    ensures value { IfOk result (λ v. bytes_of word.now ≡ Ok v.items) }
    ensures cases { IfErr result (λ e. (e ≡ NoMemory) ⊎ (bytes_of word.now ≡ Err e)) }
{
    if word == "-" {
        return Ok(Vec::new(heap));
    }
    pairs(heap, word.as_bytes())
}
