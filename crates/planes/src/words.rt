// Blocks of eight words: read and laid.
ghost use Rattle.std.specs.Prelude.{◌≡◌};
ghost use Rattle.planes.specs.Calls.{loaded, stored};

// Block b of the planes; eight empty words where there is none.
#[tactic(auto, using(crate::proofs::Laying::chunk_loaded))]
pub fn block_at(planes: &[u64], b: usize) -> [u64; 8]
    ensures { result ≡ loaded planes.now b }
{
    planes.as_chunks::<8>().0.get(b).copied().unwrap_or([0; 8])
}

// Eight words as block b of the planes, if there is such a block.
#[tactic(auto, using(crate::proofs::Laying::block_lent, crate::proofs::Laying::stored_absent))]
pub fn put_block(planes: &mut [u64], b: usize, words: [u64; 8])
    ensures { planes.new ≡ stored planes.old b words }
{
    if b < planes.len() / 8 {
        planes[8 * b..8 * b + 8].copy_from_slice(&words);
    }
}
