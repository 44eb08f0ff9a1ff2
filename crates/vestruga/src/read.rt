// `read`: bytes of a table by their addresses.
use super::files;
use super::troubles::Trouble;
use book::books::Book;
use memory::meaning::Memory;
use memory::sentences::{mark_at, read_at};

pub(super) fn run(
    rt: &HostRuntime,
    path: &str,
    address: usize,
    count: usize,
) -> Result<(), Trouble> {
    let image = files::read(rt, path)?;
    let mut book = Book::open(rt.alloc(), &image)?;
    for at in address..address.saturating_add(count) {
        print_byte(rt, &mut book, at)?;
    }
    Ok(())
}

// A byte with its mark, of any memory; what is refused ends the command.
fn print_byte<M: Memory>(rt: &HostRuntime, memory: &mut M, address: usize) -> Result<(), Trouble> {
    let refused = |refusal| Trouble::Memory { address, refusal };
    let mark = mark_at(memory, address).map_err(refused)?;
    let byte = read_at(memory, address).map_err(refused)?;
    println!(rt; "address {address}: {byte:02X}, {mark}")?;
    Ok(())
}
