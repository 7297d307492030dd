//! Memory that is used up, and then freed block by block.
use std::alloc::Global;
use std::test::Fail;

/// Takes all memory that there is, in blocks from the largest to the least. An allocator without an
/// end, as under `rt try`, leaves some.
pub fn use_up(alloc: Global, held: &mut Vec<Vec<u8>>) -> bool {
    let mut size: usize = 1 << 46;
    for _ in 0..70000 {
        let mut block: Vec<u8> = Vec::new(alloc);
        if block.try_reserve(size).is_ok() {
            let _ = held.push(block);
        } else if size == 1 {
            return true;
        } else {
            size /= 2;
        }
    }
    false
}

/// Blocks that can be freed one by one, small ones first.
pub fn spare_blocks(alloc: Global) -> Result<Vec<Vec<u8>>, Fail> {
    let mut spare: Vec<Vec<u8>> = Vec::with_capacity(alloc, 12)?;
    for size in [4096, 4096, 4096, 4096, 64, 64, 64, 64, 32, 32, 32, 32] {
        spare.push(Vec::with_capacity(alloc, size)?)?;
    }
    Ok(spare)
}
