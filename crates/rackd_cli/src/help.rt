//! What `--help` prints, for the program and for each word.
//!
//! `clap` lays the texts out: description, usage, words or arguments, options, details. It does not wrap lines, so each
//! one ends here before column 100.

/// The help of the program or of a word.
#[derive(Clone, Copy)]
pub(crate) struct Help {
    /// What it does. The description of a word is one line, which the help of the program shows too.
    pub(crate) about: &'static str,
    /// The forms of the command line, which messages about wrong words show too.
    pub(crate) usage: &'static str,
    /// What follows the options: what is read and written, and examples.
    pub(crate) details: &'static str,
}

/// The heading of the list of words.
pub(crate) const WORDS: &str = "Commands ('rackd COMMAND --help' has the details)";

/// The help of the program. It fits a terminal of 24 rows and 80 columns.
pub(crate) const PROGRAM: Help = Help {
    about: "\
rackd simulates PROFIBUS DP slaves: try a master without hardware.
Begin with 'rackd serve examples/serve/rack.toml --tick 100', connect a master,
and let 'explain' and 'judge' show what it did.",
    usage: "\
rackd COMMAND ..
       rackd < INPUT",
    details: "",
};

/// The help of `run`, and of no word.
pub(crate) const RUN: Help = Help {
    about: "Run a script on a rack; 'rackd < INPUT' reads both from one text",
    usage: "\
rackd run RACK SCRIPT
       rackd < INPUT
       rackd run --help",
    details: "\
INPUT is the text of RACK, a line that is exactly %%, and the text of SCRIPT. 'run' does not
read standard input.

A script has one command in each line of text. M is the address of a master, A that of a slave.
HEX is octets as pairs of hex digits; 'in' and 'diag' take - for no octets.
  # TEXT            A comment; it does nothing, nor does an empty line
  line N            Choose the line of number N; at the start the first line of the rack is chosen
  m M HEX..         Master M sends octets: a telegram, several, or a piece of one
  in A HEX          The operator sets the inputs of slave A
  diag A FLAGS HEX  The operator reports a diagnosis of slave A; HEX is its extended octets. FLAGS
                    are the set ones of e (Ext_Diag), s (Stat_Diag), o (Ext_Diag_Overflow), or -
  busy A POINT on   The operator makes an access point of slave A busy: 'default', or 0 to 255
  busy A POINT off  The access point is no longer busy
  tick N            N units of 10 ms pass, 0 to 4294967295
  halt              The operator halts the line
  step              The devices of the rack update the inputs of their slaves once
  owned M           Print the slaves that master M holds
  show A            Print the state, holder, inputs, outputs and watchdog of slave A
  journal           Print the audit text of the line: what came, and what was answered

Standard output gets a line for each telegram: the reply, or no reply and the reason, or that it
was done. It gets a line for each command of the operator too. The run ends at the first wrong
command.

Exit statuses of all commands:
  0  done
  1  check, explain, judge, capture: the audit text is not legal; judge: a master broke a rule,
     or something is untested
  2  invalid arguments; input, a file, a rack or a script that is not accepted; a port that is in
     use, that no program listens on or that is closed too early; an audit file that cannot be made
  3  out of memory or threads
  4  standard output cannot be written
  5  an audit text cannot be written to its file

For example, the input

[[line]]
number = 1
capacity = 1000
masters = [1, 2]
[[line.slave]]
address = 5
ident = 0x80A1
cfg = \"2111\"
%%
m 1 68 05 05 68 85 81 6D 3C 3E ED 16

is answered by

1: reply 680b0b688185083e3c020500ff80a1af16 Done

Examples:
  rackd < examples/slave-diag.txt
  rackd run examples/audit-rack.toml examples/audit-script.txt",
};

/// The help of `check`.
pub(crate) const CHECK: Help = Help {
    about: "Check whether a rack would have answered as an audit text says",
    usage: "\
rackd check RACK AUDIT..
       rackd check --help",
    details: "\
An audit text begins with its header, a line 'rack-audit ..'. In the output of 'serve' the line
'ready' comes before it: leave that line out.

Standard output gets one line. The exit status is 0 if the text is legal, else 1, and standard error
gets the row that is wrong, and what was expected.
  legal N           The text is legal and has N entries
  bad line N        Row N of the text is the first wrong one: it is badly formed
  not the policy N  Row N of the text is the first wrong one: the rack would answer otherwise

Examples:
  rackd check examples/audit-rack.toml examples/audit.txt
  rackd check rack.toml audit/line-1-1.*.audit",
};

/// The help of `explain`.
pub(crate) const EXPLAIN: Help = Help {
    about: "Explain an audit text in words, and check it as 'check' does",
    usage: "\
rackd explain RACK AUDIT.. [--faults] [--from N] [--to N] [--slave A] [--master M]
             [--refused] [--summary | --json] [--follow]
       rackd explain --help",
    details: "\
For each entry, standard output gets what was sent, in the names of the standard, the result and
its reason, and what changed. The place of an entry is its number, from 1. Only entries that meet
all given options are explained, and only those before the first wrong line.

If a slave doesn't come into data exchange, begin with --faults.

The summary of all entries follows: which master held which slave, how often each rule applied,
what each slave and each master did, and which addresses were polled. The last line and the exit
status are those of 'check': status 0 if the text is legal, else 1.

With --json each entry is one line of JSON, made of facts for programs, and so is each hold, each
count and the result of the check. docs/reference/json.md has the keys.

With --follow a rack may still be writing the last file. Each entry is explained once its row is
there, without a summary, until a row is wrong or rackd is stopped.

Examples:
  rackd explain examples/audit-rack.toml examples/audit.txt
  rackd explain examples/day-of-a-line-rack.toml examples/day-of-a-line.audit --faults --slave 5
  rackd explain rack.toml audit/line-1-1.audit --json | jq 'select(.fault)'
  rackd explain rack.toml audit/line-1-1.audit --faults --follow",
};

/// The help of `serve`.
pub(crate) const SERVE: Help = Help {
    about: "Serve a rack to masters and operators at TCP ports of 127.0.0.1",
    usage: "\
rackd serve RACK [--sessions N] [--until-input-ends] [--ports FILE]
             [--audit FOLDER [--endless [--part MB] [--keep N]] [--page N]] [--tick MS]
             [--step MS] [--log [WHAT]]
       rackd serve --help",
    details: "\
The rack file gives each line two ports: 'listen' for masters and 'operator' for its operators.
When rackd listens at all ports, it prints 'ready'. Port 0 lets the system choose; with --ports,
FILE names the ports of each line before 'ready' is printed: 'line 1 listen 7101 operator 7201'.

A master sends its address as one octet and gets E5. Then it sends telegrams and gets the replies.
A master that sends no address for ten seconds is disconnected.

An operator sends the commands of a script other than 'm', 'line' and 'journal' (see
'rackd run --help'), and gets a line for each.

Without --tick, time passes only by the operator's 'tick'. With it, each line gets 'tick N' by the
clock, where N is the number of units of 10 ms that have passed: before each request of a master, so
that watchdogs are right to the unit when it is taken, and at least every MS milliseconds. No tick
has more than twice MS. If rackd itself was delayed for longer, the rest is discarded: it releases
no slave, and a warning says how much it was. With --step, the devices of the rack update the inputs
of their slaves every MS milliseconds, as by 'step'.

With --sessions, rackd prints the audit text of each line, in the order of line numbers, when all
connections have ended. With --until-input-ends, it does the same when standard input ends, for
example because the program that started it has ended: it accepts no connection any more, and each
session ends within 200 ms. Without these two, it does not end on its own, and reads no input.

With --audit, an event is in the file before its answer is sent. N is the number of the line, and
K is above all numbers in use. 'check' reads such a file as it is. Of the output of --sessions,
give it the text of one line, from the header 'rack-audit ..' on.

With --endless, memory has only the newest entries of each line: at least half as many as its
capacity, and at least 8208. The files are line-N-K.000001.audit, line-N-K.000002.audit and so on,
and standard output gets only 'ready'. With --keep, rackd deletes the oldest of these files once the
next one has begun, so that the newest N of each line stay. It deletes only files that it has
created since it started.

With --page, a page in a browser shows the rack, as 'watch' does. Standard output gets its address
before 'ready'.

Standard error gets warnings, for example that a line is halted, also without --log.

Examples:
  rackd serve examples/serve/rack.toml --tick 100 --step 500
  rackd serve examples/serve/rack.toml --audit audit --log
  rackd serve examples/serve/rack.toml --audit audit --endless --part 100 --tick 20
  rackd serve examples/serve/rack.toml --sessions 1 > served.txt
  rackd serve examples/serve/rack.toml --ports ports.txt --until-input-ends --audit audit",
};

/// The help of `watch`.
pub(crate) const WATCH: Help = Help {
    about: "Show a rack that is served in a browser: who may change which slave",
    usage: "\
rackd watch RACK FOLDER [--port N]
       rackd watch --help",
    details: "\
FOLDER is that of 'serve --audit'. The audit texts in it are followed while they are written, so the
page shows what happens. If the rack has ended, the page shows its newest texts.

Standard output gets the address of the page, which only programs of this machine reach. rackd
changes no file, and ends by a signal.

Examples:
  rackd watch examples/serve/rack.toml audit
  rackd watch examples/serve/rack.toml audit --port 7300",
};

/// The help of `operate`.
pub(crate) const OPERATE: Help = Help {
    about: "Send commands to a line that is served, and print the answers",
    usage: "\
rackd operate PORT
       rackd operate --help",
    details: "\
Each line of standard input goes to the port, and its answer to standard output. The commands are
those of a script other than 'm', 'line' and 'journal' (see 'rackd run --help'). It ends when each
line of standard input is answered.

Time and devices by the clock are options of 'rackd serve': --tick and --step.

Examples:
  echo 'show 5' | rackd operate 7201
  rackd operate 7201",
};

/// The argument for the rack.
pub(crate) const RACK: &str =
    "Rack file (TOML): lines, each with its masters and slaves; a line is one bus";

/// The argument of `run` for the script.
pub(crate) const SCRIPT: &str = "Script: one command in each line of text";

/// The argument for the audit text.
pub(crate) const AUDIT: &str = "Audit text: one or more files, which are read one after another";

/// The argument of `operate` for the port.
pub(crate) const PORT: &str = "Port 'operator' of the line, at 127.0.0.1: 1 to 65535";

/// The options of `explain`.
pub(crate) const FROM: &str = "Explain entries from place N on: 1 to 4294967295 [default: 1]";

pub(crate) const TO: &str =
    "Explain entries up to place N: 1 to 4294967295 [default: the last one]";

pub(crate) const SLAVE: &str =
    "Explain only what concerns the slave at address A: 0 to 255 [default: all]";

pub(crate) const MASTER: &str =
    "Explain only requests of the master at address M: 0 to 255 [default: all]";

pub(crate) const FAULTS: &str = "\
Explain only what went wrong: refusals, requests that nobody can answer,
wrong parameters and configurations, released slaves, and repeats that
are another telegram";

pub(crate) const REFUSED: &str = "Explain only requests that were refused";

pub(crate) const SUMMARY: &str =
    "Explain no entries; print the summary and the result of the check";

pub(crate) const JSON: &str = "Print lines of JSON, for programs";

pub(crate) const FOLLOW: &str = "\
Explain each entry as its row is written to the last file; print no
summary, and end only at a row that is not what the policy gives";

/// The options of `serve`.
pub(crate) const SESSIONS: &str = "\
Accept N connections at each port, and end when all have ended:
1 to 1000000 [default: no limit]";

pub(crate) const FOLDER: &str = "\
Write the audit text of each line to a new file line-N-K.audit in FOLDER
[default: no files]";

pub(crate) const ENDLESS: &str = "\
Let lines continue after the capacity in the rack file, up to place
4294967295; requires --audit";

pub(crate) const PART: &str = "\
Begin the next file of an audit text after MB megabytes: 1 to 4096;
requires --endless [default: 16]";

pub(crate) const KEEP: &str = "\
Keep the newest N files of each audit text, and delete older ones when
the next one has begun: 2 to 10000; requires --endless
[default: delete none]";

pub(crate) const PAGE: &str = "\
Show the rack at port N of 127.0.0.1 in a browser: 0 to 65535, where 0
lets the system choose; requires --audit [default: no page]";

pub(crate) const PORTS: &str = "\
Write the ports of each line to FILE before 'ready' is printed
[default: no file]";

pub(crate) const UNTIL_INPUT_ENDS: &str = "\
End when standard input ends";

pub(crate) const TICK: &str = "\
Let time pass by the clock, so that watchdogs run, with a tick at least
every MS milliseconds: 10 to 60000 [default: only by operators]";

pub(crate) const STEP: &str = "\
Every MS milliseconds, the devices update the inputs of their slaves:
1 to 86400000 [default: only by operators]";

pub(crate) const LOG: &str = "\
Log to standard error: 'sessions' for connections, ends of sessions and
octets that are no telegram, 'requests' for each request and answer too
[default: only warnings; if WHAT is missing: sessions]";

/// The argument and the option of `watch`.
pub(crate) const WATCHED: &str =
    "Folder with the audit texts of the rack, as 'serve --audit' writes them";

pub(crate) const PAGE_PORT: &str =
    "Port of the page, at 127.0.0.1: 0 to 65535 [default: 0, the system chooses]";
