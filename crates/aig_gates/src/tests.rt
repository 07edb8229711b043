//! Words of literals, computed for worked inputs.

ghost use Rattle.std.specs.Prelude.{◌≡◌, ◌<◌, []};

use crate::{Netlist, Way, Word};
use std::alloc::{AllocError, Global};
use std::test::Fail;
use surf_base::Seq;

/// The variable of the first gate: the variables below are the bits of two numbers of three bits.
const START: u64 = 7;

const FIRST: [u64; 3] = [2, 4, 6];

const SECOND: [u64; 3] = [8, 10, 12];

fn value(values: &[bool], number: u64) -> bool {
    let variable = match values.get((number / 2) as usize) {
        Some(value) => *value,
        None => false,
    };
    variable != (number % 2 == 1)
}

/// The number of a word, where the variables below the gates are the bits of these inputs.
fn number(alloc: Global, netlist: &Netlist, inputs: u64, word: &[u64]) -> Result<u64, AllocError> {
    let mut values = Vec::new(alloc);
    values.push(false)?;
    for i in 0..6_u32 {
        values.push((inputs >> i) & 1 == 1)?;
    }
    for gate in netlist.gates() {
        let both = value(values.as_slice(), gate.first) && value(values.as_slice(), gate.second);
        values.push(both)?;
    }
    let mut number: u64 = 0;
    for literal in word.iter().rev() {
        let bit = u64::from(value(values.as_slice(), *literal));
        number = number.wrapping_mul(2).wrapping_add(bit);
    }
    Ok(number)
}

#[derive(Clone, Copy)]
enum Operator {
    Add,
    Subtract,
    Less,
    Equal,
    Choose,
    Minus,
    Join,
    Select,
}

fn built(alloc: Global, netlist: &mut Netlist, operator: Operator) -> Result<Word, AllocError>
    requires { netlist.old ≡ record { start = 7; gates = [] } }
{
    match operator {
        Operator::Add => netlist.add(alloc, &FIRST, &SECOND, 3),
        Operator::Subtract => netlist.subtract(alloc, &FIRST, &SECOND, 3),
        Operator::Less => Seq::from_slice(alloc, &[netlist.less(alloc, &FIRST, &SECOND)?]),
        Operator::Equal => Seq::from_slice(alloc, &[netlist.equal(alloc, &FIRST, &SECOND)?]),
        Operator::Choose => netlist.combine(alloc, Way::Choose(2), &FIRST, &SECOND),
        Operator::Minus => netlist.minus(alloc, &FIRST, 2),
        Operator::Join => netlist.join(alloc, &FIRST, &SECOND, 3),
        Operator::Select => {
            let mut row = Seq::new(alloc);
            row.push(Seq::from_slice(alloc, &SECOND)?)?;
            row.push(Seq::from_slice(alloc, &[1])?)?;
            netlist.select(alloc, row.as_slice(), &FIRST)
        }
    }
}

fn expected(operator: Operator, x: u64, y: u64) -> u64
    requires first { x < 8 }
    requires second { y < 8 }
{
    match operator {
        Operator::Add => (x + y) % 8,
        Operator::Subtract => (x + 8 - y) % 8,
        Operator::Less => u64::from(x < y),
        Operator::Equal => u64::from(x == y),
        Operator::Choose => { if x % 2 == 1 { x } else { y } }
        Operator::Minus => { if x < 4 { 3 - x } else { 0 } }
        Operator::Join => 8 * x + y,
        Operator::Select => { if x == 0 { y } else { u64::from(x == 1) } }
    }
}

#[test]
fn words_have_their_numbers(rt: HostRuntime) -> Result<(), Fail> {
    for operator in [
        Operator::Add,
        Operator::Subtract,
        Operator::Less,
        Operator::Equal,
        Operator::Choose,
        Operator::Minus,
        Operator::Join,
        Operator::Select,
    ] {
        let mut netlist = Netlist::new(rt.alloc(), START);
        let word = built(rt.alloc(), &mut netlist, operator)?;
        for x in 0..8 {
            for y in 0..8 {
                let got = number(rt.alloc(), &netlist, x + 8 * y, word.as_slice())?;
                assert_eq!(rt; got, expected(operator, x, y));
            }
        }
    }
    Ok(())
}
