//! Coordinates in one dimension, and in all three.

ghost use Rattle.std.specs.Prelude.{◌≡◌, ℕ, ◌<◌, ◌≤◌, IfSome, length, slice_index, EachIndex};
ghost use Rattle.std.specs.List.{list_all};
ghost use Rattle.noc_topo.specs.Filled.{three_sizes};
ghost use Rattle.noc_topo.specs.Shape.{is_radix, product, coordinates, node_at, moved_in, distance_in, opposite};
ghost use Rattle.noc_topo.specs.declared.limits.TheConstants.{MAX_DIMENSIONS};

use crate::limits::MAX_RADIX;

// The sizes of all three dimensions, 1 where one is missing.
pub(crate) fn filled_sizes(radix: &[usize]) -> [usize; 3]
    requires some { 1 ≤ length radix.now }
    requires few { length radix.now ≤ MAX_DIMENSIONS }
    ensures { result ≡ three_sizes radix.now }
{
    match *radix {
        [x] => [x, 1, 1],
        [x, y] => [x, y, 1],
        [x, y, z] => [x, y, z],
        _ => unreachable!(),
    }
}

// Whether each size is 2 to `MAX_RADIX`.
pub(crate) fn are_radices(radix: &[usize]) -> bool
    ensures { result ≡ list_all is_radix radix.now }
{
    radix.iter().all(|k| 2 <= *k && *k <= MAX_RADIX)
}

// How many nodes three sizes have.
pub(crate) fn volume(sizes: &[usize; 3]) -> usize
    requires { EachIndex sizes.now (λ i. slice_index sizes.now i ≤ MAX_RADIX) }
    ensures { result ≡ product sizes.now }
{
    sizes[0] * sizes[1] * sizes[2]
}

// How far two coordinates of a dimension with this many are apart.
pub(crate) fn apart(wraps: bool, size: usize, x: usize, t: usize) -> usize
    requires x { x < size }
    requires t { t < size }
    ensures value { result ≡ distance_in wraps size x t }
    ensures below { result < size }
{
    let gap = if x < t { t - x } else { x - t };
    if wraps { gap.min(size - gap) } else { gap }
}

// The coordinate one further up or down; None past a border.
pub(crate) fn moved(wraps: bool, size: usize, up: bool, x: usize) -> Option<usize>
    requires { x < size }
    ensures value { result ≡ moved_in wraps size up x }
    ensures below { IfSome result (λ y. y < size) }
{
    if up {
        if size - x > 1 {
            return Some(x + 1);
        }
        return if wraps { Some(0) } else { None };
    }
    if x > 0 {
        return Some(x - 1);
    }
    if wraps { Some(size - 1) } else { None }
}

// The port at the other end of a link.
pub(crate) fn other_end(port: usize) -> usize
    requires { port < 6 }
    ensures { result ≡ opposite port }
{
    if port % 2 == 0 { port + 1 } else { port - 1 }
}

// The three coordinates of a node.
pub(crate) fn split(sizes: &[usize; 3], node: usize) -> [usize; 3]
    requires first { 0 < slice_index sizes.now 0 }
    requires second { 0 < slice_index sizes.now 1 }
    requires third { 0 < slice_index sizes.now 2 }
    ensures { result ≡ coordinates sizes.now node }
{
    let [first, second, third] = *sizes;
    [
        node % first,
        node / first % second,
        node / first / second % third,
    ]
}

// The node at three coordinates.
pub(crate) fn join(sizes: &[usize; 3], coordinates: &[usize; 3]) -> usize
    requires sizes { EachIndex sizes.now (λ i. slice_index sizes.now i ≤ MAX_RADIX) }
    requires coordinates { EachIndex coordinates.now
        (λ i. slice_index coordinates.now i < MAX_RADIX) }
    ensures { result ≡ node_at sizes.now coordinates.now }
{
    coordinates[0] + sizes[0] * (coordinates[1] + sizes[1] * coordinates[2])
}
