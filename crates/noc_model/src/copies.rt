//! Copies of the parts of a plan.

ghost use Rattle.std.specs.Prelude.{◌≡◌, IfOk};
ghost use Rattle.noc_model.specs.PlanOf.{plan_of};

use crate::plan::{DomainPart, Parts};
use std::alloc::{AllocError, Global};

/// Equal parts.
pub(crate) fn copy_of(alloc: Global, parts: &Parts) -> Result<Parts, AllocError>
    ensures { IfOk result (λ p. plan_of p ≡ plan_of parts.now) }
{
    let dims = Vec::from_slice(alloc, &parts.dims)?;
    let domains = copy_domains(alloc, &parts.domains)?;
    let hosts = Vec::from_slice(alloc, &parts.hosts)?;
    let ranges = Vec::from_slice(alloc, &parts.ranges)?;
    let slots = Vec::from_slice(alloc, &parts.slots)?;
    Ok(Parts {
        torus: parts.torus,
        dims,
        stages: parts.stages,
        buffer: parts.buffer,
        domains,
        hosts,
        ranges,
        slots,
    })
}

/// Equal domains.
fn copy_domains(alloc: Global, domains: &[DomainPart]) -> Result<Vec<DomainPart>, AllocError>
    ensures { IfOk result (λ v. v.items ≡ domains.now) }
{
    let mut copies = Vec::new(alloc);
    for domain in domains {
        let name = domain.name.copy(alloc)?;
        copies.push(DomainPart {
            name,
            channels: domain.channels,
        })?;
    }
    Ok(copies)
}
