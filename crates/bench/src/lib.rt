// What the benchmark links: a few calls of the proved crates, for Rust to time.
#![tactic(auto)]

ghost use Rattle.std.specs.Prelude.{◌≡◌, ◌≤◌};
ghost use Rattle.blocks.specs.Check.{check_word};

use blocks::check::check_word;
use book::books::Book;
use memory::joins::Join;
use memory::meaning::Memory;
use memory::sentences::{read_at, size_of};
use memory::works::Work;
use program::program::Program;
use std::alloc::Global;

#[unsafe(no_mangle)]
pub extern "C" fn vestruga_check_word(bytes: &[u8]) -> u32
    ensures { result ≡ check_word bytes.now }
{
    check_word(bytes)
}

// The number of bundles of a code image that is accepted, else 0.
#[unsafe(no_mangle)]
pub extern "C" fn vestruga_load(heap: Global, image: &[u8]) -> u32
    ensures { result ≤ 63488 }
{
    Program::load(heap, image).map_or(0, |program| program.end() / 8)
}

// The sum of bytes read all over a book with work behind it; 0 where the image makes no book.
#[unsafe(no_mangle)]
pub extern "C" fn vestruga_reads(heap: Global, image: &[u8], work: &mut [u8], rounds: u32) -> u32 {
    let Ok(book) = Book::open(heap, image) else {
        return 0;
    };
    let mut join = Join {
        front: book,
        back: Work::over(work),
    };
    sum_reads(&mut join, rounds)
}

fn sum_reads<M: Memory>(memory: &mut M, rounds: u32) -> u32 {
    let size = size_of(memory);
    let mut sum = 0u32;
    let mut at = 0usize;
    for _ in 0..rounds {
        if let Ok(byte) = read_at(memory, at) {
            sum = sum.wrapping_add(u32::from(byte));
        }
        at = at.wrapping_add(7919);
        if at >= size {
            at = 0;
        }
    }
    sum
}
