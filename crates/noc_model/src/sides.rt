//! Sides, coordinates and steps along a side, on plain numbers.

ghost use Rattle.std.specs.Prelude.{◌≡◌, ◌<◌, ◌≤◌, ◌+◌, ◌*◌, length, take, slice_index, slice_set, IfSome, if◌then◌else◌, nat_lt, ◌&&◌, ◌||◌};
ghost use Rattle.noc_model.specs.Limits.{most_side, most_tiles};
ghost use Rattle.noc_model.specs.Plan.{product};
ghost use Rattle.noc_model.specs.Sound.{AreSides};
ghost use Rattle.noc_model.specs.Place.{coords_in, tile_in, next_in, last_in};

/// The product of the sides: the number of tiles.
pub(crate) fn product_of(sides: &[u32]) -> u32
    requires sides { AreSides sides.now }
    requires few { product sides.now ≤ most_tiles }
    ensures { result ≡ product sides.now }
{
    let mut count = 1;
    for k in sides {
        count *= *k;
    }
    count
}

/// How far apart the numbers of two tiles are that are next to each other in dimension `i`.
fn stride_of(sides: &[u32], i: usize) -> u32
    requires sides { AreSides sides.now }
    requires few { product sides.now ≤ most_tiles }
    requires there { i < length sides.now }
    ensures value { result ≡ product (take i sides.now) }
    ensures some { 0 < result }
    ensures few { result * slice_index sides.now i ≤ most_tiles }
{
    product_of(&sides[..i])
}

/// Coordinate `i` of tile `n`.
pub(crate) fn coord_in(sides: &[u32], n: u32, i: usize) -> u32
    requires sides { AreSides sides.now }
    requires few { product sides.now ≤ most_tiles }
    requires there { i < length sides.now }
    ensures value { result ≡ slice_index (coords_in sides.now n) i }
    ensures below { result < slice_index sides.now i }
{
    n / stride_of(sides, i) % sides[i]
}

/// Tile `n` with its coordinate `i` changed to `y`.
pub(crate) fn moved_in(sides: &[u32], n: u32, i: usize, y: u32) -> u32
    requires sides { AreSides sides.now }
    requires few { product sides.now ≤ most_tiles }
    requires there { i < length sides.now }
    requires tile { n < product sides.now }
    requires below { y < slice_index sides.now i }
    ensures { result ≡ tile_in sides.now (slice_set (coords_in sides.now n) i y) }
{
    let stride = stride_of(sides, i);
    n + y * stride - coord_in(sides, n, i) * stride
}

/// The coordinate after `x` along a side of `k`, where a link leads there.
pub(crate) fn plus_of(torus: bool, k: u32, x: u32) -> Option<u32>
    requires within { x < k }
    requires side { k ≤ most_side }
    ensures value { result ≡ (if nat_lt 1 k && (torus || nat_lt (x + 1) k) then Some (next_in k x) else None) }
    ensures below { IfSome result (λ y. y < k) }
{
    if x + 1 < k {
        Some(x + 1)
    } else if torus && k > 1 {
        Some(0)
    } else {
        None
    }
}

/// The coordinate before `x` along a side of `k`, where a link leads there.
pub(crate) fn minus_of(torus: bool, k: u32, x: u32) -> Option<u32>
    requires { x < k }
    ensures value { result ≡ (if nat_lt 1 k && (torus || nat_lt 0 x) then Some (last_in k x) else None) }
    ensures below { IfSome result (λ y. y < k) }
{
    if x > 0 {
        Some(x - 1)
    } else if torus && k > 1 {
        Some(k - 1)
    } else {
        None
    }
}
