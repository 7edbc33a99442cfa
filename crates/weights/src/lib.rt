// What register values and symbols are made of: single bits.
#![tactic(auto)]

ghost use Rattle.std.specs.Prelude.{◌≡◌, ◌≤◌};
ghost use Rattle.weights.specs.Weights.{bit};

// A bit of the given weight.
pub fn bit(set: bool, weight: u16) -> u16
    ensures value { result ≡ bit set weight }
    ensures upper_bound { result ≤ weight }
{
    if set { weight } else { 0 }
}
