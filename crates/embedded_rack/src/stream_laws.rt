//! A law of the stream of every master.

ghost use Rattle.std.specs.Prelude.{◌≡◌, ℕ, List, ◌++◌};
ghost use Rattle.dp_audit.specs.Journal.{Journal};
ghost use Rattle.embedded_rack.specs.EmbeddedLines.{Stream, passed, then_passed};

use dp_telegram::stream_laws::later_octets_change_no_piece;

/// However a master's octets are cut into pieces, the same events are taken and the same answers are written.
pub fn pieces_of_a_stream_do_not_matter()
    ensures { (journal : Journal) (stream : Stream) (first later : List ℕ) →
        passed journal stream (first ++ later) ≡ then_passed (passed journal stream first) later }
{
    later_octets_change_no_piece();
}
