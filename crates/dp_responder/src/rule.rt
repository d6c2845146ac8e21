//! The rules of the verdict.

ghost use Rattle.std.specs.Prelude.{◌≡◌, Some};
ghost use Rattle.dp_responder.specs.Rules.{is_refusal, rule_code, rule_name, rule_of};

/// The reason for the answer to a request: the row of the verdict that decided (own order).
///
/// Its default, the first rule, only fills the free cells of an `ArrayVec`.
#[derive(Clone, Copy, Debug, Default, PartialEq, Eq)]
pub enum Rule {
    /// The line is halted, or its journal has only the place for the halt left: silence.
    #[default]
    Halted,
    /// The octets are no single frame: silence.
    NoFrame,
    /// The event's master is not a master of the line: silence.
    NoMaster,
    /// The frame's source address isn't the event's master: silence.
    ForeignSender,
    /// A token: silence.
    Token,
    /// A short acknowledgement, or a telegram that is a response: silence.
    NotRequest,
    /// A function outside this profile: silence.
    BadFunction,
    /// An announced extension octet is missing or not plain: silence.
    BadExtension,
    /// A telegram to all stations that is not an SDN to the point of Global_Control: silence.
    BadBroadcast,
    /// No slave has the destination address: silence.
    NoStation,
    /// FDL status is answered.
    Status,
    /// SDA, ident or LSAP status at any point, SRD at a point of SDN, or SDN at a point of SRD:
    /// silence to an SDN, RS to all others.
    NoService,
    /// A repeated request: the stored reply.
    Repeat,
    /// The access point is off: RS to an SRD, silence to an SDN.
    NotActive,
    /// The access point is open to another master only: RS to an SRD, silence to an SDN.
    NotHolder,
    /// The access point is marked busy: RR to an SRD, silence to an SDN.
    Busy,
    /// The payload's length is outside the access table: UE to an SRD, silence to an SDN.
    Length,
    /// A Global_Control that doesn't select the slave: silence.
    NotSelected,
    /// The service is done.
    Done,
    /// The slave's lists don't let the sender use the access point: RS to an SRD, silence to an
    /// SDN. In the verdict it comes after [`Rule::NotHolder`].
    NotListed,
}

impl Rule {
    /// All rules, in the order of the verdict.
    pub const ALL: [Rule; 20] = [
        Rule::Halted,
        Rule::NoFrame,
        Rule::NoMaster,
        Rule::ForeignSender,
        Rule::Token,
        Rule::NotRequest,
        Rule::BadFunction,
        Rule::BadExtension,
        Rule::BadBroadcast,
        Rule::NoStation,
        Rule::Status,
        Rule::NoService,
        Rule::Repeat,
        Rule::NotActive,
        Rule::NotHolder,
        Rule::NotListed,
        Rule::Busy,
        Rule::Length,
        Rule::NotSelected,
        Rule::Done,
    ];

    /// Returns the rule of this number, 1 to 20; None for any other number (own).
    #[tactic(auto, unfolding(crate::specs::Rules::rule_of))]
    pub const fn from_code(code: u8) -> Option<Rule>
        ensures { result ≡ rule_of code }
    {
        match code {
            1 => Some(Rule::Halted),
            2 => Some(Rule::NoFrame),
            3 => Some(Rule::NoMaster),
            4 => Some(Rule::ForeignSender),
            5 => Some(Rule::Token),
            6 => Some(Rule::NotRequest),
            7 => Some(Rule::BadFunction),
            8 => Some(Rule::BadExtension),
            9 => Some(Rule::BadBroadcast),
            10 => Some(Rule::NoStation),
            11 => Some(Rule::Status),
            12 => Some(Rule::NoService),
            13 => Some(Rule::Repeat),
            14 => Some(Rule::NotActive),
            15 => Some(Rule::NotHolder),
            16 => Some(Rule::Busy),
            17 => Some(Rule::Length),
            18 => Some(Rule::NotSelected),
            19 => Some(Rule::Done),
            20 => Some(Rule::NotListed),
            _ => None,
        }
    }

    /// Returns whether the rule refuses what a request asks for (own). Status, Repeat and Done answer it; a token and a
    /// response ask for nothing.
    ///
    /// NoFrame, NoMaster and NotSelected are refusals, so that a search for a fault of the bus or
    /// of groups finds them.
    pub const fn is_refusal(self) -> bool
        ensures { result ≡ is_refusal self }
    {
        match self {
            Rule::Token | Rule::NotRequest | Rule::Status | Rule::Repeat | Rule::Done => false,
            Rule::Halted
            | Rule::NoFrame
            | Rule::NoMaster
            | Rule::ForeignSender
            | Rule::BadFunction
            | Rule::BadExtension
            | Rule::BadBroadcast
            | Rule::NoStation
            | Rule::NoService
            | Rule::NotActive
            | Rule::NotHolder
            | Rule::NotListed
            | Rule::Busy
            | Rule::Length
            | Rule::NotSelected => true,
        }
    }

    /// Returns the number of the rule, 1 to 20 (own). The numbers up to 19 are in the order of the
    /// verdict.
    #[tactic(auto, unfolding(crate::specs::Rules::rule_of))]
    pub const fn code(self) -> u8
        ensures number { result ≡ rule_code self }
        ensures own { rule_of result ≡ Some self }
    {
        match self {
            Rule::Halted => 1,
            Rule::NoFrame => 2,
            Rule::NoMaster => 3,
            Rule::ForeignSender => 4,
            Rule::Token => 5,
            Rule::NotRequest => 6,
            Rule::BadFunction => 7,
            Rule::BadExtension => 8,
            Rule::BadBroadcast => 9,
            Rule::NoStation => 10,
            Rule::Status => 11,
            Rule::NoService => 12,
            Rule::Repeat => 13,
            Rule::NotActive => 14,
            Rule::NotHolder => 15,
            Rule::Busy => 16,
            Rule::Length => 17,
            Rule::NotSelected => 18,
            Rule::Done => 19,
            Rule::NotListed => 20,
        }
    }

    /// Returns its name in texts (own).
    pub const fn name(self) -> &'static str
        ensures { result.now ≡ rule_name self }
    {
        match self {
            Rule::Halted => "Halted",
            Rule::NoFrame => "NoFrame",
            Rule::NoMaster => "NoMaster",
            Rule::ForeignSender => "ForeignSender",
            Rule::Token => "Token",
            Rule::NotRequest => "NotRequest",
            Rule::BadFunction => "BadFunction",
            Rule::BadExtension => "BadExtension",
            Rule::BadBroadcast => "BadBroadcast",
            Rule::NoStation => "NoStation",
            Rule::Status => "Status",
            Rule::NoService => "NoService",
            Rule::Repeat => "Repeat",
            Rule::NotActive => "NotActive",
            Rule::NotHolder => "NotHolder",
            Rule::Busy => "Busy",
            Rule::Length => "Length",
            Rule::NotSelected => "NotSelected",
            Rule::Done => "Done",
            Rule::NotListed => "NotListed",
        }
    }
}
