//! Laws of devices: each is the contract of an empty function.

ghost use Rattle.std.specs.Prelude.{◌≡◌, ◌≢◌, ◌+◌, ◌%◌, ◌^◌, ◌<◌, ℕ, List, length};
ghost use Rattle.std.specs.Int.Digits.{number_from_digits};
ghost use Rattle.dp_slave.specs.declared.description.Device.{Device};
ghost use Rattle.dp_slave.specs.declared.description.Device.TheVariants as devices;
ghost use Rattle.rack_devices.specs.Devices.{AreOctets, next_inputs, counted_for};

/// The inputs keep their number of octets.
pub fn inputs_keep_their_length()
    ensures { (device : Device) (inputs outputs : List ℕ) → length (next_inputs device inputs outputs) ≡ length inputs }
{}

/// After a number of steps a counter has counted on by that number; after all ones it starts again at zero.
pub fn a_counter_counts_steps()
    ensures { (steps : ℕ) (inputs : List ℕ) → AreOctets inputs
        → number_from_digits 256 (counted_for steps inputs) ≡ (number_from_digits 256 inputs + steps) % 256 ^ length inputs }
{}

/// A counter of n octets is back at its first value after 256 to the power of n steps.
pub fn a_counter_comes_round()
    ensures { (inputs : List ℕ) → AreOctets inputs → counted_for (256 ^ length inputs) inputs ≡ inputs }
{}

/// A counter of n octets isn't back at its first value after fewer steps, except after none.
pub fn a_counter_does_not_come_round_before()
    ensures { (inputs : List ℕ) (steps : ℕ) → AreOctets inputs → 0 < steps → steps < 256 ^ length inputs
        → counted_for steps inputs ≢ inputs }
{}

/// A mirror with as many outputs as inputs sets the inputs to the outputs.
pub fn a_mirror_of_equal_length_feeds_the_outputs()
    ensures { (inputs outputs : List ℕ) → length outputs ≡ length inputs → next_inputs devices.Mirror inputs outputs ≡ outputs }
{}
