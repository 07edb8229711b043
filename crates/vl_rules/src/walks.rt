//! The nets that an expression reads.

ghost use Rattle.std.specs.Prelude.{◌≡◌};
ghost use Rattle.std.specs.List.{list_any};
ghost use Rattle.vl_tree.specs.Read.{read, reads};
ghost use Rattle.vl_model.specs.Meaning.{nets_of, parts_nets};
ghost use Rattle.vl_rules.specs.Walks.{net_passes};

use crate::names::Names;
use crate::scope::{Entry, Role, is_role, was_assigned};
use sqlite_items::Boxed;
use vl_tree::Expr;

/// A test of a net that an expression reads.
#[derive(Clone, Copy)]
pub enum NetTest<'a> {
    /// It is no port, wire or register that is declared before the line.
    Unknown(&'a Names<Entry>, usize),
    /// It is a wire or an output port, and no line before this one assigns it.
    Early(&'a Names<Entry>, &'a Names<usize>, usize),
    /// It is in the set.
    Within(&'a Names<()>),
}

/// Whether the net passes the test.
fn passes(test: &NetTest, name: &[u8]) -> bool
    ensures { result ≡ net_passes test.now name.now }
{
    match test {
        NetTest::Unknown(declared, number) => !is_role(declared, *number, name, Role::Net),
        NetTest::Early(declared, assigned, number) => {
            is_role(declared, *number, name, Role::Driven) && !was_assigned(assigned, *number, name)
        }
        NetTest::Within(set) => set.get(name).is_some(),
    }
}

/// Whether the expression reads a net that passes, in an index too.
#[cycle(nets)]
#[tactic(auto, using(crate::proofs::Anys::anys))]
pub fn any_net(e: &Expr, test: &NetTest) -> bool
    ensures { result ≡ list_any (net_passes test.now) (nets_of (read e.now)) }
{
    match e {
        Expr::Net(n) | Expr::Bit(n, _) | Expr::Part(n, _, _) => passes(test, n.as_slice()),
        Expr::Number(_) => false,
        Expr::Word(_, index) => boxed(index, test),
        Expr::Not(a) => boxed(a, test),
        Expr::Two(_, a, b) => boxed(a, test) || boxed(b, test),
        Expr::If(c, a, b) => boxed(c, test) || boxed(a, test) || boxed(b, test),
        Expr::Cat(es) => any_in(es.as_slice(), test),
    }
}

#[cycle(nets)]
fn boxed(e: &Boxed<Expr>, test: &NetTest) -> bool
    ensures { result ≡ list_any (net_passes test.now) (nets_of (read e.now)) }
{
    any_net(e.get(), test)
}

/// Whether one of the parts reads a net that passes.
#[cycle(nets)]
#[tactic(auto, using(crate::proofs::Anys::anys))]
fn any_in(es: &[Expr], test: &NetTest) -> bool
    ensures { result ≡ list_any (net_passes test.now) (parts_nets (reads es.now)) }
{
    for e in es {
        if any_net(e, test) {
            return true;
        }
    }
    false
}
