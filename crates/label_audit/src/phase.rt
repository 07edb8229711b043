//! The labels of a whole design in one phase.
ghost use Rattle.std.specs.Prelude.{◌≡◌, ◌/◌, ◌<◌, ◌++◌, List, [], ◌∷◌, map, length, get_or, IfOk, OnOk};
ghost use Rattle.std.specs.List.{AllByRecursion};
ghost use Rattle.vl_tree.specs.declared.tree.TopItem.{TopItem};
ghost use Rattle.vl_tree.specs.Read.{read_leaves};
ghost use Rattle.vl_model.specs.Lines.{top_lines};
ghost use Rattle.vl_rules.specs.Library.{IsLibrary};
ghost use Rattle.vl_run.specs.Emit.{place_in};
ghost use Rattle.vl_run.specs.Fresh.{HasLeaf};
ghost use Rattle.label_model.specs.Labels.{only, from};
ghost use Rattle.label_audit.specs.Bits.{label_in};
ghost use Rattle.label_audit.specs.Rows.{row_in, rows_by};
ghost use Rattle.label_audit.specs.Instances.{no_rows};
ghost use Rattle.label_audit.specs.Whole.{IsShape, AreParts, domain_at, input_rows, tops_in, phase_in, first_in, next_in};

use crate::bit::Bit;
use crate::expr::{Scope, place};
use crate::part::{Part, no_rows, put};
use crate::row::{Row, like};
use crate::tables::{Rows, at, of_instance};
use noc_model::Plan;
use std::alloc::{AllocError, Global};
use std::marker::Model;
use vl_rules::{Entry, Library, Module, Names};
use vl_tree::{Design, Port, TopItem};

/// The labels of the registers and memories of each instance, in order.
#[derive(Drop)]
pub(crate) struct Phase {
    instances: Vec<Rows>,
}

impl Model for Phase {
    ghost use Rattle.std.specs.Prelude.{List};
    ghost use Rattle.label_audit.specs.declared.bit.Bit.{Bit};

    ghost Value = { List (List (List Bit)) };

    ghost view = { λ p. p.instances.items };
}

impl Phase {
    pub(crate) fn new(instances: Vec<Rows>) -> Phase
        ensures { result ≡ instances.items }
    {
        Phase { instances }
    }

    pub(crate) fn as_slice(&self) -> &[Rows]
        ensures { result.now ≡ self.now }
    {
        self.instances.as_slice()
    }
}

/// The rows of phase `f`, of which there are none behind the last.
pub(crate) fn of_phase(phases: &[Phase], f: usize) -> &[Rows]
    ensures { result.now ≡ get_or phases.now f [] }
{
    match phases.get(f) {
        Some(phase) => phase.as_slice(),
        None => &[],
    }
}

/// How many ports an attachment has.
const KINDS: usize = 11;

/// The domain of port `i` of the plan's text.
pub(crate) fn owner(plan: &Plan, i: usize) -> u32
    requires { i / 11 < length plan.now.hosts }
    ensures { result ≡ domain_at plan.now.hosts i }
{
    plan.known();
    plan.attach((i / KINDS) as u32).domain
}

/// A design that is labelled: its instances, and what its top declares.
#[derive(Clone, Copy)]
pub(crate) struct Shape<'a> {
    pub(crate) plan: &'a Plan,
    pub(crate) design: &'a Design,
    pub(crate) declared: &'a Names<Entry>,
    pub(crate) parts: &'a [Part<'a>],
}

/// Adds the instance, if the item is one.
fn add_part<'a>(
    item: &'a TopItem,
    library: &'a Library<'a>,
    parts: &mut Vec<Part<'a>>,
) -> Result<(), AllocError>
    requires { IsLibrary library.now }
    ensures { OnOk result ((is : List TopItem) → HasLeaf (read_leaves library.now.leaves.now) item.now
        → AreParts (read_leaves library.now.leaves.now) is parts.old.items
        → AreParts (read_leaves library.now.leaves.now) (is ++ item.now ∷ []) parts.new.items) }
{
    match item {
        TopItem::Instance { leaf, joins, .. } => {
            match library.leaf(library.leaves.len(), leaf.as_slice()) {
                Some(known) => {
                    parts.push(Part {
                        leaf: known,
                        joins: joins.as_slice(),
                    })?;
                    Ok(())
                }
                None => Ok(()),
            }
        }
        TopItem::Wire { .. } => Ok(()),
    }
}

/// The instances, in order.
pub(crate) fn parts<'a>(
    alloc: Global,
    items: &'a [TopItem],
    library: &'a Library<'a>,
) -> Result<Vec<Part<'a>>, AllocError>
    requires library { IsLibrary library.now }
    requires leaves { AllByRecursion (HasLeaf (read_leaves library.now.leaves.now)) items.now }
    ensures { IfOk result (λ v. AreParts (read_leaves library.now.leaves.now) items.now v.items) }
{
    let mut parts = Vec::new(alloc);
    for item in items {
        add_part(item, library, &mut parts)?;
    }
    Ok(parts)
}

/// The label of an input of a domain.
fn input(domain: u32) -> Bit
    requires { domain < 16 }
    ensures { label_in result ≡ from (only domain) }
{
    Bit::From(1u16 << domain)
}

impl<'a> Shape<'a> {
    /// The top's nets: its ports are from their own domains.
    fn inputs(&self, alloc: Global) -> Result<Vec<Row>, AllocError>
        requires { IsShape self.now }
        ensures { IfOk result (λ v. map row_in v.items
            ≡ input_rows (place_in self.now.declared.now) self.now.plan.now.hosts self.now.design.now.top.ports 0
            (no_rows (length (top_lines self.now.design.now.top)))) }
    {
        let ports = self.design.top.ports.as_slice();
        let mut tops = no_rows(alloc, Module::Top(&self.design.top).len())?;
        let mut i = ports.len();
        while 0 < i {
            i -= 1;
            let port = &ports[i];
            let row = like(alloc, input(owner(self.plan, i)), port.high as usize + 1)?;
            let to = place(self.declared, port.name.as_slice());
            put(tops.as_mut_slice(), to, row);
        }
        Ok(tops)
    }

    /// The labels of the top's nets.
    pub(crate) fn tops(&self, alloc: Global, kept: &[Rows]) -> Result<Vec<Row>, AllocError>
        requires { IsShape self.now }
        ensures { IfOk result (λ v. map row_in v.items ≡ tops_in self.now (phase_in kept.now)) }
    {
        let mut tops = self.inputs(alloc)?;
        let mut i = self.parts.len();
        while 0 < i {
            i -= 1;
            self.parts[i].show(alloc, of_instance(kept, i), self.declared, &mut tops)?;
        }
        Ok(tops)
    }

    /// The labels of registers and memories at reset.
    pub(crate) fn first(&self, alloc: Global) -> Result<Phase, AllocError>
        ensures { IfOk result (λ p. phase_in p ≡ first_in self.now) }
    {
        let mut phase = Vec::new(alloc);
        for i in 0..self.parts.len() {
            phase.push(Rows::new(self.parts[i].first(alloc)?))?;
        }
        Ok(Phase::new(phase))
    }

    /// The labels of registers and memories that a phase hands over to the next.
    pub(crate) fn next(&self, alloc: Global, kept: &[Rows]) -> Result<Phase, AllocError>
        requires { IsShape self.now }
        ensures { IfOk result (λ p. phase_in p ≡ next_in self.now (phase_in kept.now)) }
    {
        let tops = self.tops(alloc, kept)?;
        let top = Scope {
            declared: self.declared,
            rows: tops.as_slice(),
        };
        let mut phase = Vec::new(alloc);
        for i in 0..self.parts.len() {
            let rows = self.parts[i].next(alloc, of_instance(kept, i), &top)?;
            phase.push(Rows::new(rows))?;
        }
        Ok(Phase::new(phase))
    }

    /// The labels of the bits of a port of the top.
    #[tactic(auto, using(crate::proofs::Rows::rows))]
    pub(crate) fn shown<'b>(&self, tops: &'b [Row], port: &Port) -> &'b [Bit]
        ensures { row_in result.now ≡ rows_by (place_in self.now.declared.now) (map row_in tops.now) port.now.name }
    {
        at(tops, place(self.declared, port.name.as_slice()))
    }
}
