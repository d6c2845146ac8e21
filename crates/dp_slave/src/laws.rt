//! Laws of a slave: each is what a function that does nothing ensures.

ghost use Rattle.std.specs.Prelude.{◌≡◌, ◌≢◌, ◌+◌, ◌<◌, ◌≤◌, ℕ, All, List, length, not, Option, true, false};
ghost use Rattle.dp_sap.specs.AccessTable.{is_listed};
ghost use Rattle.dp_prm.specs.Requests.{AsksUnsupported, IsLocking};
ghost use Rattle.dp_slave.specs.declared.description.SlaveSpec.{SlaveSpec};
ghost use Rattle.dp_slave.specs.SlaveRecord.{SlaveRecord, configurations, is_held_by, limits_of, output_length, points_of, released, starting_slave, zeros};
ghost use Rattle.dp_slave.specs.Acts.{Act, Control, configures, exchanges, halts, is_controlled, is_read, releases, sends_diagnosis, ticks};
ghost use Rattle.dp_slave.specs.Fields.{acted};
ghost use Rattle.dp_slave.specs.Services.{service_act, set_prm_act};
ghost use Rattle.dp_slave.specs.Reachable.{all_suit, is_reachable, suits};
ghost use Rattle.dp_slave.specs.Sound.{is_sound};
ghost use Rattle.dp_slave.specs.Soundness.{acts_after, all_fit, ends_clearing, fits, IsSound};

/// A release changes nothing of a released slave, and a halt releases.
pub fn released_is_a_fixed_point()
    ensures again { (slave : SlaveRecord) → released (released slave) ≡ released slave }
    ensures halt { (slave : SlaveRecord) → acted slave halts ≡ released slave }
{}

/// A slave is sound after any acts from the start, each of which the verdict or the line lets
/// through. Outside Data_Exch its outputs and latest data are zero and neither mode is on. It is in
/// Wait_Prm exactly when nobody holds it. A watchdog runs exactly when the holder's parameters ask
/// for one. Inputs, frozen inputs, outputs and latest data have the lengths of the shape in force,
/// which is that of a configuration of the slave if it has any. A slave that is cleared is
/// fail-safe and in Data_Exch, and its outputs and latest data are zero.
pub fn a_slave_stays_sound()
    ensures { (masters : List ℕ) (description : SlaveSpec) (acts : List Act)
        → all_fit (starting_slave masters description) acts ≡ true
        → IsSound (acts_after (starting_slave masters description) acts) }
{}

/// The test of a restored slave says what holds of every slave that has a configuration.
pub fn a_sound_slave_passes_the_test()
    ensures { (slave : SlaveRecord)
        → IsSound slave
        → slave.shape < length (configurations slave.description)
        → is_sound slave ≡ true }
{}

/// What a request does suits the slave: who locks it may do so, it takes the parameters of a lock, a
/// fault is for something that is not supported only if the slave lacks Sync or Freeze, and a
/// configuration is one that a master can choose. The lists of the slave let the sender use the point
/// of the request, and its octets are below 256.
pub fn a_request_suits_the_slave()
    ensures { (slave : SlaveRecord) (sender place : ℕ) (point : Option ℕ) (octets : List ℕ)
        → All (λ octet. octet < 256) octets
        → is_listed (points_of slave) point sender ≡ true
        → suits slave (service_act slave sender place point octets) ≡ true }
{
    dp_prm::laws::lock_or_fault();
    dp_prm::laws::not_supported_is_sync_or_freeze();
}

/// A slave that has a configuration passes the test of the slaves to which acts can have led: at its
/// start, after an act that fits and suits it if it passed before, and so after any such acts from its
/// start.
pub fn a_slave_stays_reachable()
    ensures start { (masters : List ℕ) (description : SlaveSpec)
        → 1 ≤ length (configurations description)
        → is_reachable (starting_slave masters description) ≡ true }
    ensures act { (slave : SlaveRecord) (act : Act)
        → is_reachable slave ≡ true
        → fits slave act ≡ true
        → suits slave act ≡ true
        → is_reachable (acted slave act) ≡ true }
    ensures acts { (masters : List ℕ) (description : SlaveSpec) (acts : List Act)
        → 1 ≤ length (configurations description)
        → all_fit (starting_slave masters description) acts ≡ true
        → all_suit (starting_slave masters description) acts ≡ true
        → is_reachable (acts_after (starting_slave masters description) acts) ≡ true }
{}

/// A locking request for an unsupported Sync or Freeze is reported as Not_Supported in addition to
/// the parameter fault. It doesn't matter what else is wrong with it, such as a wrong ident number.
pub fn an_unsupported_request_is_reported()
    ensures fault { (slave : SlaveRecord) (sender place : ℕ) (octets : List ℕ)
        → IsLocking octets
        → AsksUnsupported octets (limits_of slave)
        → (acted slave (set_prm_act slave sender place octets)).diag.prm_fault ≡ true }
    ensures reported { (slave : SlaveRecord) (sender place : ℕ) (octets : List ℕ)
        → IsLocking octets
        → AsksUnsupported octets (limits_of slave)
        → (acted slave (set_prm_act slave sender place octets)).diag.not_supported ≡ true }
{
    dp_prm::laws::not_supported_is_sync_or_freeze();
}

/// In sync mode data don't change the outputs. Unsync without Clear_Data puts out the latest data.
pub fn sync_waits_for_unsync()
    ensures waits { (slave : SlaveRecord) (octets : List ℕ)
        → slave.sync_mode ≡ true
        → (acted slave (exchanges octets)).outputs ≡ slave.outputs }
    ensures put_out { (slave : SlaveRecord) (octets : List ℕ) (control : Control)
        → control.unsync ≡ true
        → control.clear_data ≡ false
        → (acted (acted slave (exchanges octets)) (is_controlled control)).outputs ≡ octets }
{}

/// A master that does not hold the slave changes nothing of it by Slave_Diag. No master changes
/// anything by reading inputs, outputs or the configuration.
pub fn a_stranger_changes_nothing()
    ensures diagnosis { (slave : SlaveRecord) (sender : ℕ)
        → is_held_by sender slave ≡ false
        → acted slave (sends_diagnosis sender) ≡ slave }
    ensures read { (slave : SlaveRecord) → acted slave is_read ≡ slave }
{}

/// Only a good Chk_Cfg changes the shape in force. The new shape is the configuration that was sent.
pub fn the_shape_changes_by_chk_cfg_alone()
    ensures { (slave : SlaveRecord) (act : Act)
        → (acted slave act).shape ≢ slave.shape
        → (number : ℕ) × (act ≡ configures number) × ((acted slave act).shape ≡ number) }
{}

/// Clear_Data makes a fail-safe slave cleared. This ends with a Data_Exchange of the whole length,
/// a lock, a release or a configuration of another number. Until such a Data_Exchange the outputs
/// and latest data are zeros, as many as the shape in force has.
pub fn a_cleared_slave_waits_for_data()
    ensures begins { (slave : SlaveRecord) (control : Control)
        → slave.description.failsafe ≡ true
        → control.clear_data ≡ true
        → (acted slave (is_controlled control)).cleared ≡ true }
    ensures stays { (slave : SlaveRecord) (act : Act)
        → slave.cleared ≡ true
        → (acted slave act).cleared ≡ not (ends_clearing slave act) }
    ensures zero { (slave : SlaveRecord) (act : Act)
        → IsSound slave
        → slave.cleared ≡ true
        → fits slave act ≡ true
        → ((octets : List ℕ) → act ≢ exchanges octets)
        → ((acted slave act).outputs ≡ zeros (output_length (acted slave act)))
        × ((acted slave act).latest ≡ zeros (output_length (acted slave act))) }
{}

/// Time that doesn't release the slave has the same effect as a whole and in parts.
pub fn time_adds_up()
    ensures { (slave : SlaveRecord) (time more : ℕ)
        → releases slave (ticks (time + more)) ≡ false
        → acted (acted slave (ticks time)) (ticks more) ≡ acted slave (ticks (time + more)) }
{}
