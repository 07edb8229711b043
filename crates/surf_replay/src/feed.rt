//! What a driver puts on the input ports.

ghost use Rattle.std.specs.Prelude.{◌≡◌, ◌<◌, [], ◌∷◌, ◌++◌, length, OnOk};
ghost use Rattle.vl_model.specs.Meaning.{one_if};
ghost use Rattle.gen_kit.specs.Ports.{top_ports};
ghost use Rattle.vl_run.specs.Stands.{AreInputs};
ghost use Rattle.surf_replay.specs.Feed.{offer_numbers, host_numbers, all_numbers, IsSmallOffer};

use flit_word::Offer;
use noc_model::Plan;
use std::alloc::AllocError;
use tile_drive::Drive;

/// 1 if it holds, else 0.
fn one_if(is: bool) -> u64
    ensures { result ≡ one_if is }
{
    if is { 1 } else { 0 }
}

/// Adds four numbers.
fn push_four(inputs: &mut Vec<u64>, a: u64, b: u64, c: u64, d: u64) -> Result<(), AllocError>
    ensures { OnOk result (inputs.new.items ≡ inputs.old.items ++ (a ∷ b ∷ c ∷ d ∷ [])) }
{
    inputs.push(a)?;
    inputs.push(b)?;
    inputs.push(c)?;
    inputs.push(d)?;
    Ok(())
}

/// Adds the numbers of what is offered.
fn push_offer(inputs: &mut Vec<u64>, offer: Option<Offer>) -> Result<(), AllocError>
    ensures numbers { OnOk result (inputs.new.items ≡ inputs.old.items ++ offer_numbers offer) }
    ensures small { OnOk result (IsSmallOffer offer) }
{
    match offer {
        Some(word) => push_four(
            inputs,
            1,
            word.address as u64,
            word.payload as u64,
            one_if(word.last),
        ),
        None => push_four(inputs, 0, 0, 0, 0),
    }
}

/// Adds the numbers of attachment j's input ports.
fn push_attached<D: Drive>(
    inputs: &mut Vec<u64>,
    drive: &D,
    j: u32,
    cycle: u32,
) -> Result<(), AllocError>
    requires { j < D.count drive.now }
    ensures numbers { OnOk result (inputs.new.items ≡ inputs.old.items
        ++ host_numbers ((D.driver drive.now).offer j (D.state drive.now j) cycle)
        ((D.driver drive.now).hears j (D.state drive.now j) cycle)) }
    ensures small { OnOk result (IsSmallOffer ((D.driver drive.now).offer j (D.state drive.now j) cycle)) }
{
    push_offer(inputs, drive.offer(j, cycle))?;
    inputs.push(one_if(drive.hears(j, cycle)))?;
    Ok(())
}

/// Makes the numbers those of all attachments' input ports in the cycle, in order.
pub(crate) fn fill<D: Drive>(
    inputs: &mut Vec<u64>,
    plan: &Plan,
    drive: &D,
    cycle: u32,
) -> Result<(), AllocError>
    requires { D.count drive.now ≡ length plan.now.hosts }
    ensures numbers { OnOk result (inputs.new.items
        ≡ all_numbers (D.driver drive.now) cycle (D.state drive.now) 0 plan.now.hosts) }
    ensures fit { OnOk result (AreInputs (top_ports plan.now) inputs.new.items) }
{
    inputs.clear();
    for j in 0..plan.attach_count() {
        push_attached(inputs, drive, j, cycle)?;
    }
    Ok(())
}
