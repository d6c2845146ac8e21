//! How a rack is served.

/// How much is reported on standard error while a rack is served.
#[derive(Clone, Copy, PartialEq, Eq)]
pub enum LogDetail {
    /// Only warnings: that a line is halted, that a connection waits because all workers are busy, and that time was cut
    /// off because the program was held up.
    Warnings,
    /// Connections and sessions too.
    Sessions,
    /// Each request and its answer too.
    Requests,
}

/// The parts of an audit text. Each part has a file of its own.
#[derive(Clone, Copy)]
pub struct PartOptions {
    /// The least megabytes of a part, 1 to 4,096. A megabyte has 1,000,000 bytes.
    pub megabytes: u16,
    /// How many of the newest parts of each line stay, 2 to 10,000; None if no part is deleted.
    pub keep: Option<u16>,
}

/// How a rack is served.
#[derive(Clone, Copy)]
pub struct ServeOptions<'a> {
    /// The number of connections that each port accepts, 1 to 1,000,000; None if it accepts them without limit.
    pub sessions: Option<u32>,
    /// The folder in which each line has a file for its audit text while it is served; None if there is no such file.
    pub audit: Option<&'a str>,
    /// The parts of the audit texts if the lines are endless; None if each line has the places of the rack file.
    pub endless: Option<PartOptions>,
    /// The port of the page that shows the rack, 0 if the system chooses one; None if there is no page.
    pub page: Option<u16>,
    /// The most milliseconds from tick to tick, 10 to 60,000, by which the time of each line passes; None if time passes
    /// only by the ticks of operators.
    pub tick: Option<u32>,
    /// The milliseconds from step to step of the devices, 1 to 86,400,000; None if only operators have them step.
    pub step: Option<u32>,
    /// The file that names the ports of each line once they are listened at; None if there is no such file.
    pub ports: Option<&'a str>,
    /// Whether serving ends when standard input ends.
    pub until_input_ends: bool,
    /// How much is reported on standard error.
    pub log_detail: LogDetail,
}
