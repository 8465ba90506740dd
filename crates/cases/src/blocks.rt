// A register block through a list of accesses, each given the block that the last one gave back.
use super::{print, print_checked, stream};
use order::{Caller, Order, Refusal};
use order_file::bytes::{read2, read4, to_signed};
use registers::Block;
use registers::reading::read;
use registers::writing::write;

// The bytes of the longest file that is stored, and the rows that are held at most.
const FILE_BYTES: usize = 220;

const ROWS: usize = 180;

// How many accesses there are, and the accesses, from a cleared block on.
pub fn block_case() {
    let mut block = registers::clearing::cleared();
    for _ in 0..stream::number() {
        access(&mut block);
    }
}

// One access, of a number's four bytes: which it is, an address, a value, 0.
fn access(block: &mut Block) {
    let [which, address, value, _] = stream::number().to_le_bytes();
    match which {
        1 => *block = write(*block, address, value),
        2 => load(block),
        3 => print_bytes(*block, address, value),
        _ => print_rows(*block),
    }
}

// The bytes of the stream are written from byte 32 on.
fn load(block: &mut Block) {
    let mut file = [0u8; FILE_BYTES];
    let n = stream::bytes(&mut file);
    for (address, byte) in (32u8..=251).zip(&file[..n]) {
        *block = write(*block, address, *byte);
    }
}

// What is read from one address to another.
fn print_bytes(block: Block, first: u8, last: u8) {
    print::text(b"bytes ");
    for address in first..=last {
        print::hex(read(block, address));
    }
    print::text(b"\n");
}

// What the plan check says to the rows held: the order is the one in the file, the bound the lateness used, both as they read.
fn print_rows(block: Block) {
    print::text(b"rows ");
    let head: [u8; 16] = bytes_from(block, 0);
    let stored: [u8; FILE_BYTES] = bytes_from(block, 32);
    let length = read2(&head, 8) as usize;
    let bound = to_signed(read4(&head, 12));
    let Some(file) = stored.get(..length) else {
        print::refused(Refusal::BadFile);
        return;
    };
    match callers::files::read_order_for(Caller::Screen, file) {
        Ok(order) => check_rows(&all_rows(block), order, bound),
        Err(refusal) => print::refused(refusal),
    }
}

// The rows held through the check.
fn check_rows(rows: &[[u32; 4]], order: Order, bound: i32) {
    print_checked(callers::check::check_plan_for(
        Caller::Screen,
        order,
        bound,
        rows_held(rows).as_flattened(),
    ));
}

// What the bytes from an address on read.
fn bytes_from<const N: usize>(block: Block, first: u8) -> [u8; N] {
    std::array::from_fn(|i| read(block, first.wrapping_add((i % 256) as u8)))
}

// What each row reads, from row 1 on.
fn all_rows(block: Block) -> [[u32; 4]; ROWS] {
    std::array::from_fn(|i| row_at(block, ((i + 1) % 256) as u8))
}

// The four numbers of the row of this number.
fn row_at(block: Block, number: u8) -> [u32; 4] {
    let asked = write(write(block, 10, number), 11, 0);
    let row: [u8; 16] = bytes_from(asked, 16);
    [
        read4(&row, 0),
        read4(&row, 4),
        read4(&row, 8),
        read4(&row, 12),
    ]
}

// The rows before the first whose job is 0.
fn rows_held(rows: &[[u32; 4]]) -> &[[u32; 4]] {
    let n = rows.iter().position(|row| row[0] == 0);
    &rows[..n.unwrap_or(rows.len())]
}
