//! The line, the rack and the texts that are passed to the calls.

ghost use Rattle.std.specs.Prelude.{◌≡◌, [], ◌∷◌, true, false, IfOk, None};
ghost use Rattle.dp_line.specs.World.{description_of, opening_fault};
ghost use Rattle.dp_sap.specs.AccessTable.{no_lists};

use arrayvec::ArrayVec;
use dp_line::{Device, LineSpec, Lists, SlaveSpec};
use std::alloc::{AllocError, Global};

/// A rack of two lines.
pub(crate) const RACK: &str = "\
[[line]]
number = 1
capacity = 1000
masters = [1, 2]
[[line.slave]]
address = 5
ident = 0x80A1
cfg = \"2111\"
[[line]]
number = 2
capacity = 1000
masters = [1]
[[line.slave]]
address = 6
ident = 0x80A1
cfg = \"2111\"
device = \"counter\"
";

/// A script for this rack.
pub(crate) const SCRIPT: &str = "\
m 1 68 05 05 68 85 81 6D 3C 3E ED 16
journal
";

/// What this script writes.
pub(crate) const ANSWERS: &[u8] = b"\
1: reply 680b0b688185083e3c020500ff80a1af16 Done
rack-audit 2 line 1
1 req 1 6805056885816d3c3eed16 | WaitPrm none | reply 680b0b688185083e3c020500ff80a1af16 Done
";

/// An audit text of line 1, with one entry.
pub(crate) const AUDIT: &str = "\
rack-audit 2 line 1
1 req 1 6805056885816d3c3eed16 | WaitPrm none | reply 680b0b688185083e3c020500ff80a1af16 Done
";

/// What is written for this text.
pub(crate) const VERDICT: &[u8] = b"legal 1\n";

/// Returns line 1, with masters 1 and 2 and slave 5.
pub(crate) fn described(alloc: Global) -> Result<LineSpec, AllocError>
    ensures { IfOk result (λ line. opening_fault (description_of line) ≡ None) }
{
    let mut masters = ArrayVec::new();
    masters.push(1);
    masters.push(2);
    let mut slaves = Vec::new(alloc);
    slaves.push(slave())?;
    Ok(LineSpec {
        number: 1,
        capacity: 1000,
        masters,
        slaves,
    })
}

/// Returns a slave with two octets of inputs and two of outputs.
fn slave() -> SlaveSpec
    ensures { result ≡ record {
      address = 5;
      ident = 0x80A1;
      cfgs = record { items = record { items = 0x21 ∷ 0x11 ∷ [] } ∷ [] };
      sync = true;
      freeze = true;
      user_max = 237;
      device = Device.Still;
      lists = no_lists;
      failsafe = false;
    } }
{
    let mut cfg = ArrayVec::new();
    cfg.push(0x21);
    cfg.push(0x11);
    let mut cfgs = ArrayVec::new();
    cfgs.push(cfg);
    SlaveSpec {
        address: 5,
        ident: 0x80A1,
        cfgs,
        sync: true,
        freeze: true,
        user_max: 237,
        device: Device::Still,
        lists: Lists {
            lockers: None,
            readers: None,
        },
        failsafe: false,
    }
}
