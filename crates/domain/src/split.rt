// All pieces of a domain, in the front of a caller's slice.
ghost use Rattle.std.specs.Prelude.{◌≡◌, ◌≤◌, length};
ghost use Rattle.domain.specs.Split.{fronted, split_answer, split_by};

use crate::traits::Domain;

// Why a domain is not split.
#[derive(Clone, Copy, Debug, PartialEq, Eq)]
pub enum Unsplit {
    // No pieces are asked for.
    NoPieces,
    // Their number does not divide the size.
    Uneven,
    // The slice has fewer places.
    FewPlaces,
}

// Writes pieces 0 to k - 1 of k; an error writes nothing.
// The slice is the caller's, since the library has no heap.
pub fn split<D: Domain>(d: D, k: usize, pieces: &mut [D]) -> Result<(), Unsplit>
    ensures answer { result ≡ split_answer (length (D.Points.points d)) k (length pieces.old) }
    ensures slice { pieces.new ≡ split_by (split_answer (length (D.Points.points d)) k (length pieces.old)) (λ i. D.Domain.pieces d i k) k pieces.old }
{
    if k == 0 {
        return Err(Unsplit::NoPieces);
    }
    if d.size() % k != 0 {
        return Err(Unsplit::Uneven);
    }
    if pieces.len() < k {
        return Err(Unsplit::FewPlaces);
    }
    fill(d, k, pieces);
    Ok(())
}

// Piece i stands in place i.
fn fill<D: Domain>(d: D, k: usize, pieces: &mut [D])
    requires { k ≤ length pieces.old }
    ensures { pieces.new ≡ fronted (λ i. D.Domain.pieces d i k) 0 k pieces.old }
{
    // By index: after `iter_mut` a proof knows how many elements there are, and not which.
    for i in 0..k {
        pieces[i] = d.piece(i, k).unwrap_or(pieces[i]);
    }
}
