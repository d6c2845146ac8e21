//! The slaves of a line as JSON.

ghost use Rattle.std.specs.Prelude.{[], Some};
ghost use Rattle.std.specs.Fmt.{WritesOnOk};
ghost use Rattle.explain_texts.specs.JsonValues.{array_json, each_behind};
ghost use Rattle.watch_json.specs.Lines.{slaves_json};

use crate::slave::SlaveJson;
use dp_slave::SlaveSpec;
use explain_texts::Follower;
use std::fmt;

/// The slaves of these descriptions, with commas between.
#[derive(Clone, Copy)]
struct EachSlave<'a> {
    follower: &'a Follower<'a>,
    specs: &'a [SlaveSpec],
}

impl<'a> fmt::Display for EachSlave<'a> {
    ghost output = { λ s. Some (each_behind [] (slaves_json s.follower.now.known.context s.specs.now)) };

    fn fmt<W: fmt::Write>(&self, f: &mut fmt::Formatter<W>) -> fmt::Result {
        write_slaves(f, "", self.follower, self.specs)
    }
}

/// Writes the slaves of these descriptions, the first one after this separator.
fn write_slaves<W: fmt::Write>(
    f: &mut fmt::Formatter<W>,
    separator: &str,
    follower: &Follower<'_>,
    specs: &[SlaveSpec],
) -> fmt::Result
    ensures { WritesOnOk W.Write.write_str_gives f.old result
        (each_behind separator.now (slaves_json follower.now.known.context specs.now)) f.new }
{
    let [spec, others @ ..] = specs else {
        return Ok(());
    };
    let Some(slave) = follower.line().slave(spec.address) else {
        return write_slaves(f, separator, follower, others);
    };
    let slave = SlaveJson {
        release: follower.release(spec.address),
        spec,
        slave,
    };
    write!(f, "{separator}{slave}")?;
    write_slaves(f, ",", follower, others)
}

/// The slaves of these descriptions, as an array.
#[derive(Clone, Copy)]
pub(crate) struct Slaves<'a> {
    pub(crate) follower: &'a Follower<'a>,
    pub(crate) specs: &'a [SlaveSpec],
}

impl<'a> fmt::Display for Slaves<'a> {
    ghost output = { λ s. Some (array_json (slaves_json s.follower.now.known.context s.specs.now)) };

    #[tactic(auto, unfolding(explain_texts::specs::JsonValues::array_json))]
    fn fmt<W: fmt::Write>(&self, f: &mut fmt::Formatter<W>) -> fmt::Result {
        let slaves = EachSlave {
            follower: self.follower,
            specs: self.specs,
        };
        write!(f, "[{slaves}]")
    }
}
