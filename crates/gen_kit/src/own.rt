//! Names of a leaf's own.

ghost use Rattle.std.specs.Prelude.{◌≡◌, ◌++◌, ◌∷◌, ◌+◌, ◌*◌, ◌%◌, ◌^◌, ◌<◌, decimal, OnOk, IfOk};
ghost use Rattle.gen_kit.specs.OwnNames.{domain_port, lettered, own_front, short_decimal, own_name_of};

use crate::work::push_digits;
use std::alloc::{AllocError, Global};
use surf_base::Seq;
use vl_tree::Name;

/// A domain and a port as one number.
fn domain_port(domain: u32, port: u32) -> u32
    requires domain_small { domain < 2 ^ 26 }
    requires port_small { port < 8 }
    ensures { result ≡ domain_port domain port }
{
    16 * (domain / 4) + 2 * port + domain / 2 % 2
}

/// Adds an underscore, and the digits of a number that isn't 0.
fn push_short(name: &mut Name, number: u32) -> Result<(), AllocError>
    ensures { OnOk result (name.new ≡ name.old ++ (95 ∷ short_decimal number)) }
{
    name.push(b'_')?;
    if number == 0 {
        return Ok(());
    }
    push_digits(name, number)
}

/// The letter of a kind: a capital in an even domain, a small one in an odd domain.
fn letter(kind: u32, domain: u32) -> u8
    requires { kind < 26 }
    ensures { result ≡ 65 + 32 * (domain % 2) + kind }
{
    (65 + 32 * (domain % 2) + kind) as u8
}

/// A letter and a number.
fn lettered(alloc: Global, kind: u32, domain: u32, number: u32) -> Result<Name, AllocError>
    requires { kind < 26 }
    ensures { IfOk result (λ n. n ≡ lettered kind domain number) }
{
    let mut name = Seq::from_slice(alloc, &[letter(kind, domain)])?;
    push_digits(&mut name, number)?;
    Ok(name)
}

/// What the names of a tag begin with.
fn own_front(alloc: Global, tag: u32) -> Result<Name, AllocError>
    ensures { IfOk result (λ n. n ≡ own_front tag) }
{
    if tag < 1024 {
        let place = 64 * (tag % 8) + domain_port(tag / 64, tag / 8 % 8);
        lettered(alloc, 24, tag / 64, place)
    } else if tag < 2048 {
        lettered(alloc, 25, tag / 512, tag % 512)
    } else if tag < 4096 {
        let place = domain_port(tag / 128 - 16, tag % 8);
        lettered(alloc, tag / 8 % 16, tag / 128, place)
    } else if tag < 5120 {
        lettered(alloc, 25, tag / 512, 512 + tag % 512)
    } else {
        let place = domain_port(tag / 64 - 80, tag % 8);
        lettered(alloc, 16 + tag / 8 % 8, tag / 64, place)
    }
}

/// A name of a leaf's own: the front of its tag, and for each number an underscore and its decimal digits, none for 0.
/// No two tags of a leaf, all below 6144, share one.
///
/// # Errors
///
/// Memory ran out.
pub fn own_name(alloc: Global, tag: u32, numbers: &[u32]) -> Result<Name, AllocError>
    ensures { IfOk result (λ n. n ≡ own_name_of tag numbers.now) }
{
    let mut name = own_front(alloc, tag)?;
    for number in numbers {
        push_short(&mut name, *number)?;
    }
    Ok(name)
}
