// What a case is lent: the scheme and the matrix that the cases share, which it may change for those behind it; as many of the cells, and of the bytes
// of a buffer, as it says.
use model::{Scheme, Things};

#[derive(Drop)]
pub(crate) struct Lent<'a> {
    pub scheme: &'a mut Scheme,
    pub things: &'a mut Things,
    pub cells: &'a mut [u64],
    pub out: &'a mut [u8],
}
