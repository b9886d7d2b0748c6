// Sixteen bytes put together from two slices.
ghost use Rattle.std.specs.Prelude.{◌≡◌, ◌++◌};
ghost use Rattle.pieces.specs.Piece.{sixteen};

// The first sixteen bytes of `front` and then `back`, with zeros past their end.
#[tactic(auto, using(crate::proofs::SixteenLaws::sixteen_put))]
pub fn sixteen_of(front: &[u8], back: &[u8]) -> [u8; 16]
    ensures { result ≡ sixteen (front.now ++ back.now) }
{
    let mut block = [0u8; 16];
    let n = front.len().min(16);
    block[..n].copy_from_slice(&front[..n]);
    let m = back.len().min(16 - n);
    block[n..n + m].copy_from_slice(&back[..m]);
    block
}
