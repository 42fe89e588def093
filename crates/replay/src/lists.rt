// Lists of numbers, with a comma between two. `-` is none.
ghost use Rattle.std.specs.Prelude.{◌≡◌, ◌++◌, IfOk, ◌&&◌, length, drop, nat_le};
ghost use Rattle.std.specs.List.{list_all};
ghost use Rattle.replay.specs.Counts.{IsPrefixLen};
ghost use Rattle.replay.specs.Lists.{pieces, is_entry, is_list, list_of, list_in};

use std::alloc::{AllocError, Global};

fn is_entry(piece: &[u8], most: u64) -> bool
    ensures { result ≡ is_entry most piece.now }
{
    crate::words::is_size(piece) && crate::words::number(piece) <= most
}

// Whether there are 4,096 at most, each up to `most`.
fn are_entries(word: &[u8], most: u64) -> bool
    ensures { result ≡ nat_le (length (pieces word.now)) 4096 && list_all (is_entry most) (pieces word.now) }
{
    word.split(|b| *b == b',').count() <= 4096
        && word
            .split(|b| *b == b',')
            .all(|piece| is_entry(piece, most))
}

// Whether a word is a list of numbers up to `most`, of 4,096 at most.
#[tactic(auto, using(crate::proofs::Pieces::are_entries_is), unfolding(crate::specs::Lists::is_list))]
pub fn is_list(word: &[u8], most: u64) -> bool
    ensures { result ≡ is_list word.now most }
{
    word == b"-".as_slice() || are_entries(word, most)
}

// The numbers of a list, at the front of a buffer; how many there are.
pub fn read_into(word: &[u8], buf: &mut [u64]) -> usize
    ensures value { result ≡ length (list_in (length buf.old) word.now) }
    ensures buf_after { buf.new ≡ list_in (length buf.old) word.now ++ drop result buf.old }
    ensures prefix_len { IsPrefixLen result buf.new }
{
    if word == b"-".as_slice() {
        return 0;
    }
    let mut rest = word;
    for i in 0..buf.len() {
        let n = crate::words::letters(rest, b',');
        buf[i] = crate::words::number(&rest[..n]);
        if n == rest.len() {
            return i + 1;
        }
        rest = &rest[n + 1..];
    }
    buf.len()
}

// The numbers of a list.
pub fn read(alloc: Global, word: &[u8]) -> Result<Vec<u64>, AllocError>
    ensures { IfOk result (λ v. v.items ≡ list_of word.now) }
{
    if word == b"-".as_slice() {
        return Ok(Vec::new(alloc));
    }
    let n = word.split(|b| *b == b',').count();
    let mut numbers = vec![in alloc; 0; n]?;
    read_into(word, &mut numbers);
    Ok(numbers)
}
