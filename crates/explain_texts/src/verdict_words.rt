//! The verdict on an audit text, as a row and as a line of JSON.

ghost use Rattle.std.specs.Prelude.{◌≡◌};
ghost use Rattle.explain_texts.specs.Explained.{verdict_text};
ghost use Rattle.explain_texts.specs.Json.{verdict_json, verdict_line};

use dp_audit::AuditFault;
use dp_text::Text;

/// Sets the text to the verdict on an audit text: `legal N`, `bad line N` or `not the policy N`, with its LF. Leaves it
/// empty if the verdict is that memory ran out.
pub fn set_verdict(text: &mut Text, verdict: Result<u32, AuditFault>)
    ensures { text.new ≡ verdict_text verdict }
{
    text.clear();
    match verdict {
        Ok(count) => {
            text.push_str("legal ");
            text.push_number(count);
        }
        Err(AuditFault::OutOfMemory) => return,
        Err(AuditFault::BadLine(row)) => {
            text.push_str("bad line ");
            text.push_long(row);
        }
        Err(AuditFault::NotThePolicy(row)) => {
            text.push_str("not the policy ");
            text.push_long(row);
        }
    }
    text.push(b'\n');
}

/// Sets the text to the verdict on an audit text as the line of JSON that a judge writes: `{"verdict":"legal","entries":N}`,
/// `{"verdict":"bad line","row":N}` or `{"verdict":"not the policy","row":N}`, with its LF. Leaves it empty if the verdict
/// is that memory ran out.
pub fn set_json_verdict(text: &mut Text, verdict: Result<u32, AuditFault>)
    ensures { text.new ≡ verdict_json verdict }
{
    text.clear();
    match verdict {
        Ok(count) => {
            text.push_str("{\"verdict\":\"legal\",\"entries\":");
            text.push_number(count);
        }
        Err(AuditFault::OutOfMemory) => return,
        Err(AuditFault::BadLine(row)) => {
            text.push_str("{\"verdict\":\"bad line\",\"row\":");
            text.push_long(row);
        }
        Err(AuditFault::NotThePolicy(row)) => {
            text.push_str("{\"verdict\":\"not the policy\",\"row\":");
            text.push_long(row);
        }
    }
    text.push_str("}\n");
}

/// Sets the text to the verdict on an audit text as a line of JSON of an explanation, with its LF. Leaves it empty if the
/// verdict is that memory ran out.
pub(crate) fn set_verdict_line(text: &mut Text, verdict: Result<u32, AuditFault>)
    ensures { text.new ≡ verdict_line verdict }
{
    text.clear();
    match verdict {
        Ok(count) => {
            text.push_str("{\"version\":2,\"kind\":\"verdict\",\"verdict\":\"legal\",\"entries\":");
            text.push_number(count);
        }
        Err(AuditFault::OutOfMemory) => return,
        Err(AuditFault::BadLine(row)) => {
            text.push_str("{\"version\":2,\"kind\":\"verdict\",\"verdict\":\"bad line\",\"row\":");
            text.push_long(row);
        }
        Err(AuditFault::NotThePolicy(row)) => {
            text.push_str(
                "{\"version\":2,\"kind\":\"verdict\",\"verdict\":\"not the policy\",\"row\":",
            );
            text.push_long(row);
        }
    }
    text.push_str("}\n");
}
