// Sums of what was lent. Each place counts by its value and its position, so that a store anywhere in it changes the sum.
use model::Things;

// The sum with one number behind it, modulo the largest prime below 2 to the 40.
fn add(sum: u64, x: u64) -> u64 {
    (sum % 1099511627689 * 1000003 + x % 1099511627689) % 1099511627689
}

// Of bytes or ids.
pub(crate) fn numbers<T: Copy + Into<u64>>(list: &[T]) -> u64 {
    list.iter().fold(1, |sum, &x| add(sum, x.into()))
}

// By halves, so that no two sets are one number.
fn cells(from: u64, cells: &[u64]) -> u64 {
    cells.iter().fold(
        from,
        |sum, cell| add(add(sum, cell % 4294967296), cell / 4294967296),
    )
}

fn things(th: &Things) -> u64 {
    let mut sum: u64 = 1;
    for i in 0..Things::LIMIT {
        let of = th.types[i];
        sum = add(add(sum, th.ids[i] as u64), of.0 as u64);
        sum = add(sum, th.marks[i] as u64);
    }
    sum
}

// The matrix that the cases share: the things, the highest id, the cells.
pub(crate) fn matrix(th: &Things, all: &[u64]) -> u64 {
    cells(add(things(th), th.highest as u64), all)
}
