//! One chunk of free memory in the words of its space.
ghost use Rattle.std.specs.Prelude.{◌≡◌, ◌+◌, ◌<◌, ◌≤◌, get_or, length};
ghost use Rattle.memlist.specs.Chain.{cut_rest, cut_words, linked_head, linked_words, word_place, written};

use crate::gap::Gap;
use crate::region::REACH;

/// What a chunk says of itself: the address of the next chunk, or 0 at the end, and its size in bytes.
#[derive(Clone, Copy)]
pub struct Chunk {
    pub next: u32,
    pub size: u32,
}

/// The size of a word in bytes.
pub const WORD: u32 = 4;

/// The place of the word that represents an address.
///
/// Source: RKM Libraries, Exec Memory Allocation: MemChunk.
pub fn word_place(base: u32, address: u32) -> usize
    requires { base ≤ address }
    ensures { result ≡ word_place base address }
{
    ((address - base) / WORD) as usize
}

/// Reads the chunk whose first word is at a place.
///
/// Source: RKM Libraries, Exec Memory Allocation: MemChunk.
pub fn read(words: &[u32], place: usize) -> Chunk
    requires { place + 1 < length words.now }
    ensures next { result.next ≡ get_or words.now place 0 }
    ensures size { result.size ≡ get_or words.now (place + 1) 0 }
{
    Chunk {
        next: words[place],
        size: words[place + 1],
    }
}

/// Writes a chunk: two words, the first of them at a place.
///
/// Source: RKM Libraries, Exec Memory Allocation: MemChunk.
pub fn write(words: &mut Vec<u32>, place: usize, chunk: Chunk)
    requires { place + 1 < length words.old.items }
    ensures { words.new.items ≡ written words.old.items place chunk.next chunk.size }
{
    words[place] = chunk.next;
    words[place + 1] = chunk.size;
}

/// Cuts the first bytes off a gap, so that what is left is a chunk of its own before the next one. The answer is where
/// it begins, or where the next one does if nothing is left.
///
/// Source: RKM Libraries, Exec Memory Allocation: MemChunk.
pub fn cut(words: &mut Vec<u32>, base: u32, gap: Gap, size: u32, next: u32) -> u32
    requires low { base ≤ gap.address }
    requires fits { size ≤ gap.size }
    requires reach { gap.address + gap.size ≤ REACH }
    requires room { size < gap.size → word_place base (gap.address + size) + 1 < length words.old.items }
    ensures rest { result ≡ cut_rest gap size next }
    ensures words { words.new.items ≡ cut_words base words.old.items gap size next }
{
    if size == gap.size {
        return next;
    }
    let address = gap.address + size;
    let chunk = Chunk {
        next,
        size: gap.size - size,
    };
    write(words, word_place(base, address), chunk);
    address
}

/// Makes the chunk at an address, or the head if that is 0, name the next one.
///
/// Source: RKM Libraries, Exec Memory Allocation: MemChunk.
pub fn link(head: &mut u32, words: &mut Vec<u32>, base: u32, before: u32, next: u32)
    requires low { 0 < before → base ≤ before }
    requires within { 0 < before → word_place base before < length words.old.items }
    ensures head { head.new ≡ linked_head head.old before next }
    ensures words { words.new.items ≡ linked_words base words.old.items before next }
{
    if before == 0 {
        *head = next;
    } else {
        words[word_place(base, before)] = next;
    }
}
