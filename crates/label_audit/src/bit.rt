//! What is known of a bit, and the operators on one bit.
ghost use Rattle.std.specs.Prelude.{◌≡◌, ◌≢◌, ◌<◌, true, false};
ghost use Rattle.label_model.specs.Labels.{Label, sources, mixed, join, not_label, and_label, or_label, xor_label, choice_label};
ghost use Rattle.label_model.specs.Phase.{write_label};
ghost use Rattle.label_audit.specs.Bits.{domains_in, mask_in, label_in};
ghost use Rattle.label_audit.specs.Rises.{bit_left};

/// What is known of a bit: its value, or the domains whose inputs it may depend on, domain `d` by bit `d`.
#[derive(Clone, Copy)]
pub(crate) enum Bit {
    Known(bool),
    From(u16),
}

/// The domains that the bit may depend on.
#[tactic(auto, using(crate::proofs::Bits::bits))]
pub(crate) fn domains(x: Bit) -> u16
    ensures set { domains_in result ≡ sources (label_in x) }
    ensures mask { result ≡ mask_in x }
{
    match x {
        Bit::Known(_) => 0,
        Bit::From(mask) => mask,
    }
}

/// A bit that may depend on what both do.
pub(crate) fn both(x: Bit, y: Bit) -> Bit
    ensures mixes { label_in result ≡ mixed (label_in x) (label_in y) }
    ensures less { result ≢ x → bit_left result < bit_left x }
{
    Bit::From(domains(x) | domains(y))
}

/// The least label that is above both.
pub(crate) fn join(x: Bit, y: Bit) -> Bit
    ensures above { label_in result ≡ join (label_in x) (label_in y) }
    ensures less { result ≢ x → bit_left result < bit_left x }
{
    match (x, y) {
        (Bit::Known(true), Bit::Known(true)) => Bit::Known(true),
        (Bit::Known(false), Bit::Known(false)) => Bit::Known(false),
        _ => both(x, y),
    }
}

/// Whether both say the same.
pub(crate) fn is_same(x: Bit, y: Bit) -> bool
    ensures same { result ≡ true → x ≡ y }
    ensures other { result ≡ false → x ≢ y }
{
    match (x, y) {
        (Bit::Known(a), Bit::Known(b)) => a == b,
        (Bit::From(a), Bit::From(b)) => a == b,
        _ => false,
    }
}

/// The other value where it is known.
pub(crate) fn not(x: Bit) -> Bit
    ensures { label_in result ≡ not_label (label_in x) }
{
    match x {
        Bit::Known(b) => Bit::Known(!b),
        Bit::From(mask) => Bit::From(mask),
    }
}

/// 0 where one is known to be 0.
pub(crate) fn and(x: Bit, y: Bit) -> Bit
    ensures { label_in result ≡ and_label (label_in x) (label_in y) }
{
    match (x, y) {
        (Bit::Known(false), _) => Bit::Known(false),
        (_, Bit::Known(false)) => Bit::Known(false),
        (Bit::Known(true), Bit::Known(true)) => Bit::Known(true),
        _ => both(x, y),
    }
}

/// 1 where one is known to be 1.
pub(crate) fn or(x: Bit, y: Bit) -> Bit
    ensures { label_in result ≡ or_label (label_in x) (label_in y) }
{
    match (x, y) {
        (Bit::Known(true), _) => Bit::Known(true),
        (_, Bit::Known(true)) => Bit::Known(true),
        (Bit::Known(false), Bit::Known(false)) => Bit::Known(false),
        _ => both(x, y),
    }
}

/// Known where both are.
pub(crate) fn xor(x: Bit, y: Bit) -> Bit
    ensures { label_in result ≡ xor_label (label_in x) (label_in y) }
{
    match (x, y) {
        (Bit::Known(a), Bit::Known(b)) => Bit::Known(a != b),
        _ => both(x, y),
    }
}

/// The chosen bit where the test is known.
pub(crate) fn choice(test: Bit, x: Bit, y: Bit) -> Bit
    ensures { label_in result ≡ choice_label (label_in test) (label_in x) (label_in y) }
{
    match test {
        Bit::Known(true) => x,
        Bit::Known(false) => y,
        Bit::From(_) => both(test, both(x, y)),
    }
}

/// A bit of a memory after a store of what has the label `new`.
pub(crate) fn write(enable: Bit, old: Bit, new: Bit) -> Bit
    ensures { label_in result ≡ write_label (label_in enable) (label_in old) (label_in new) }
{
    match enable {
        Bit::Known(false) => old,
        _ => join(old, both(enable, new)),
    }
}
