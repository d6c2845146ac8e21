//! Laws of sessions. Each is the contract of a function that does no work.

ghost use Rattle.std.specs.Prelude.{ℕ, List};
ghost use Rattle.dp_line.specs.declared.description.LineSpec.{LineSpec};
ghost use Rattle.dp_shared.specs.Content.{Content};
ghost use Rattle.dp_shared.specs.Numbers.{under};
ghost use Rattle.dp_shared.specs.declared.claim_view.ClaimView.{ClaimView};
ghost use Rattle.dp_shared.specs.LineLock.{FitsPass, IsPassAt, LineRule, Slotted};
ghost use Rattle.dp_shared.specs.declared.line_view.PassView.{PassView};
ghost use Rattle.dp_sessions.specs.declared.session_end.SessionEnd.{SessionEnd};
ghost use Rattle.dp_sessions.specs.Sessions.{HasExchanged, IsAccepted, Streams};
ghost use Rattle.dp_sessions.specs.Operators.{HasOperatedBy};
ghost use Rattle.dp_sessions.specs.Tied.{HasAnswered, HasAnsweredMaster, entries_behind};
ghost use Rattle.dp_sessions.specs.TiedOperators.{HasAnsweredLines};
ghost use Rattle.rack_devices.specs.declared.driven_slave.DrivenSlave.{DrivenSlave};

use dp_shared::laws::a_pass_has_its_entries;

/// A session by a pass wrote the replies of the journal's entries under the number of the pass, in order. These are the
/// entries of the first frames of the stream that it read, and of all frames unless the pass was answered that the line
/// is halted. `fits` is for the journal of a closed line, which fits each of its passes. `rule` is for any time, by the
/// invariant of the line's lock.
pub fn a_session_has_its_entries()
    ensures fits { (content : Content) (turns : ℕ) (streams : Streams) (before after : PassView) (end : SessionEnd)
        → HasExchanged turns streams before after end → FitsPass content after
        → HasAnswered turns streams before.address after.saw_halt (entries_behind content before after) end }
    ensures rule { (line : LineSpec) (state : Slotted) (rule : LineRule line state) (i a turns : ℕ) (streams : Streams) (before after : PassView) (end : SessionEnd)
        → HasExchanged turns streams before after end → IsPassAt state i a after
        → HasAnswered turns streams before.address after.saw_halt (entries_behind rule.content before after) end }
{
    a_pass_has_its_entries();
}

/// In an operator's session by a pass, each event of its lines left the next entry under the number of the pass, or was
/// refused, and each look was answered from a prefix of the entries. `fits` is for the journal of a closed line, which
/// fits each of its passes. `rule` is for any time, by the invariant of the line's lock.
pub fn an_operator_has_its_entries()
    ensures fits { (content : Content) (driven : List DrivenSlave) (turns : ℕ) (streams : Streams) (before after : PassView) (end : SessionEnd)
        → HasOperatedBy driven turns streams before after end → FitsPass content after
        → HasAnsweredLines content driven turns streams (entries_behind content before after) end }
    ensures rule { (line : LineSpec) (state : Slotted) (rule : LineRule line state) (i a : ℕ) (driven : List DrivenSlave) (turns : ℕ) (streams : Streams) (before after : PassView) (end : SessionEnd)
        → HasOperatedBy driven turns streams before after end → IsPassAt state i a after
        → HasAnsweredLines rule.content driven turns streams (entries_behind rule.content before after) end }
{
    a_pass_has_its_entries();
}

/// A session of a master that ended with this pass wrote the acceptance `E5`, and then the replies of the journal's
/// entries under the number of the pass, in order. These are the entries of the first frames of the stream after the
/// address, and of all frames unless the pass was answered that the line is halted. `fits` is for the journal of a
/// closed line, which fits each pass that [`close_with`](dp_shared::Line::close_with) was given. `rule` is for any
/// time, by the invariant of the line's lock.
pub fn a_master_has_its_entries()
    ensures fits { (content : Content) (masters : List ℕ) (turns : ℕ) (streams : Streams) (before after : ClaimView) (pass : PassView) (end : SessionEnd)
        → IsAccepted masters turns streams before after pass end → FitsPass content pass
        → HasAnsweredMaster turns streams pass.saw_halt (under pass.number content.numbers content.book.entries) end }
    ensures rule { (line : LineSpec) (state : Slotted) (rule : LineRule line state) (i a : ℕ) (masters : List ℕ) (turns : ℕ) (streams : Streams) (before after : ClaimView)
        (pass : PassView) (end : SessionEnd)
        → IsAccepted masters turns streams before after pass end → IsPassAt state i a pass
        → HasAnsweredMaster turns streams pass.saw_halt (under pass.number rule.content.numbers rule.content.book.entries) end }
{
    a_pass_has_its_entries();
}
