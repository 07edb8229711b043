//! The round-robin choice.

ghost use Rattle.std.specs.Prelude.{◌≡◌, ◌<◌, ℕ, true, false, length, IfSome, IfNone};
ghost use Rattle.noc_model.specs.Pick.{pick, least};
ghost use Rattle.vc_partition.specs.Picks.{member, from_on, comes_first};

/// The choice of a round-robin arbiter: the least member of the set that is not below the pointer, and where there is
/// none the least member. It is none exactly where the set is empty.
pub fn pick(set: &[bool], pointer: usize) -> Option<usize>
    ensures value { result ≡ pick (length set.now) (member set.now) pointer }
    ensures found { IfSome result (λ k. member set.now k ≡ true) }
    ensures empty { IfNone result ((k : ℕ) → member set.now k ≡ false) }
{
    match first_from(set, pointer) {
        Some(k) => Some(k),
        None => first_from(set, 0),
    }
}

/// The least member that is not below `from`.
fn first_from(set: &[bool], from: usize) -> Option<usize>
    ensures value { result ≡ least (length set.now) (from_on from (member set.now)) }
    ensures found { IfSome result (λ k. member set.now k ≡ true) }
{
    for (k, member) in set.iter().enumerate() {
        if k >= from && *member {
            return Some(k);
        }
    }
    None
}

/// Whether `a` comes before `b` from the pointer on, round the turn. A choice is the best of its members in this order,
/// so it can be made from one member after the other.
pub fn comes_first(pointer: u32, a: u32, b: u32) -> bool
    ensures { result ≡ comes_first pointer a b }
{
    if pointer <= a {
        b < pointer || a < b
    } else {
        b < pointer && a < b
    }
}
