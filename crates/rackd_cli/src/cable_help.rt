//! What `--help` prints for the word `cable`. Each line ends before column 100.

use crate::help::Help;

/// The help of `cable`.
pub(crate) const CABLE: Help = Help {
    about: "Put a cable with faults between masters and a line that is served",
    usage: "\
rackd cable PORT --listen PORT2 [--lose P] [--spoil P] [--cut P] [--late P MS] [--delay MS]
             [--requests | --replies] [--seed N] [--resync MS] [--drop-tokens] [--log]
             [--ports FILE]
       rackd cable --help",
    details: "\
A master connects to PORT2 as it would to PORT, and each connection gets one of its own to the line.
Telegrams are passed on both ways. The faults are on the cable only: the journal of the line has
what its slaves saw. When rackd listens, it prints 'ready'. It does not end on its own.

A telegram meets at most one fault by chance: the first of lost, spoilt, cut and late whose chance P
comes true. P is a percentage from 0 to 100 with at most four decimals. A spoilt telegram has one
changed octet and never a right check sequence. Of a cut telegram the last octets are missing.
Nothing overtakes a late telegram of its direction. The same seed and the same telegrams of a master
give the same faults.

Lines of standard input order faults. A is the address of a slave.
  off A         Lose requests to slave A and its replies, as if it were off the bus
  on A          Slave A is on the bus again
  lose A N      Lose the next N replies of slave A: 1 to 1000000
  spoil A N     Change one octet of each
  cut A N       Cut each
  late A N MS   Delay each by MS milliseconds: 0 to 60000
  clear         All slaves are on the bus, and no line waits for replies
Standard output gets 'done LINE' when a line is done, which is when its N replies have come, and
'refused NotACommand' or 'refused TooMany' at once: at most 64 lines wait for replies. Lines for one
slave are used up in their order.

Examples:
  rackd cable 7101 --listen 7401 --lose 1.5 --seed 7 --log
  rackd cable 7101 --listen 7401 --late 10 300 --replies
  echo 'lose 5 1' | rackd cable 7101 --listen 7401",
};

/// The argument for the port of the line.
pub(crate) const PORT: &str = "Port 'listen' of the line, at 127.0.0.1: 1 to 65535";

/// The options.
pub(crate) const LISTEN: &str = "\
Listen for masters at port PORT2 of 127.0.0.1: 0 to 65535, where 0 lets
the system choose";

pub(crate) const LOSE: &str = "Lose P percent of the telegrams [default: 0]";

pub(crate) const SPOIL: &str = "Change one octet of P percent of the telegrams [default: 0]";

pub(crate) const CUT: &str = "Cut P percent of the telegrams [default: 0]";

pub(crate) const LATE: &str = "\
Delay P percent of the telegrams by MS milliseconds: 0 to 60000
[default: none]";

pub(crate) const DELAY: &str = "Delay each reply by MS milliseconds: 0 to 60000 [default: 0]";

pub(crate) const REQUESTS: &str = "Only requests meet faults by chance";

pub(crate) const REPLIES: &str = "Only replies meet faults by chance";

pub(crate) const SEED: &str =
    "Seed of the faults by chance: 0 to 18446744073709551615 [default: 0]";

pub(crate) const RESYNC: &str = "\
Drop octets that are no whole telegram after MS milliseconds without
another octet: 1 to 60000 [default: wait for the rest]";

pub(crate) const DROP_TOKENS: &str = "Do not pass on tokens that a master sends to itself";

pub(crate) const LOG: &str = "\
Write a row for each fault to standard error, with the octets before and
after it";

pub(crate) const PORTS: &str = "\
Write the ports to FILE before 'ready', as 'cable PORT listen PORT2'
[default: no file]";
