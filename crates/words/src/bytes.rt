ghost use Rattle.std.specs.Prelude.{◌≡◌, IfOk};
ghost use Rattle.words.specs.Bytes.{words_in, bytes_in};
ghost use Rattle.words.specs.Laws.{BytesRead};

use std::alloc::{AllocError, Global};

// The word of odd bytes: its kind is unknown.
const ODD: u32 = 0;

/// The words of a file's bytes, low byte first; one to three odd bytes at the end are a further word, which says nothing.
#[tactic(auto, using(crate::proofs::Byting::bytes_read))]
pub fn words_of(heap: Global, bytes: &[u8]) -> Result<Vec<u32>, AllocError>
    ensures answer { IfOk result (λ v. v.items ≡ words_in bytes.now) }
    ensures laws { BytesRead }
{
    let (fours, odd) = bytes.as_chunks::<4>();
    let mut words: Vec<u32> = fours
        .iter()
        .map(|four| u32::from_le_bytes(*four))
        .collect(heap)?;
    if !odd.is_empty() {
        // one word more, where a push alone would double the room of a long file
        words.reserve_exact(1)?;
        words.push(ODD)?;
    }
    Ok(words)
}

/// The bytes of words, low byte first.
pub fn bytes_of(heap: Global, words: &[u32]) -> Result<Vec<u8>, AllocError>
    ensures { IfOk result (λ v. v.items ≡ bytes_in words.now) }
{
    let mut bytes = Vec::new(heap);
    for word in words {
        // taken apart into an array of their own: a copy from the call's array first tests at each word that it overlaps nothing
        let [a, b, c, d] = word.to_le_bytes();
        bytes.extend_from_slice(&[a, b, c, d])?;
    }
    Ok(bytes)
}
