//! The function code of a telegram.

ghost use Rattle.std.specs.Prelude.{◌≡◌, ◌<◌};
ghost use Rattle.dp_telegram.specs.FunctionCode.{is_set as is_set_of, is_request as is_request_by, frame_count_bit, frame_count_is_valid, function_of, asks_srd, asks_sdn};

/// OK: the request was acknowledged (IEC 61158-4-3, function code of a response).
pub const OK: u8 = 0x00;

/// UE: user error, the service refused the request.
pub const UE: u8 = 0x01;

/// RR: no resource, the service is busy.
pub const RR: u8 = 0x02;

/// RS: the service is not activated, or not for this sender.
pub const RS: u8 = 0x03;

/// DL: data of low priority.
pub const DL: u8 = 0x08;

/// DH: data of high priority; with it a slave asks the master to read its diagnosis.
pub const DH: u8 = 0x0A;

/// What a request asks for (IEC 61158-4-3, function code of a request).
#[derive(Clone, Copy, Debug, PartialEq, Eq)]
pub enum Function {
    /// Send Data with Acknowledge, low priority: 3.
    SdaLow,
    /// Send Data with No acknowledge, low priority: 4.
    SdnLow,
    /// Send Data with Acknowledge, high priority: 5.
    SdaHigh,
    /// Send Data with No acknowledge, high priority: 6.
    SdnHigh,
    /// Request FDL Status: 9.
    FdlStatus,
    /// Send and Request Data with reply, low priority: 12.
    SrdLow,
    /// Send and Request Data with reply, high priority: 13.
    SrdHigh,
    /// Request Ident: 14.
    Ident,
    /// Request LSAP Status: 15.
    LsapStatus,
    /// Every other number is treated as reserved (own).
    /// It has no number, because nothing needs one. So a client can't make a reserved function of a
    /// number that has a meaning.
    Reserved,
}

impl Function {
    /// Returns the function of a request with this FC, 0 to 255, by bits 3 to 0.
    pub const fn from_fc(fc: u8) -> Function
        ensures { result ≡ function_of fc }
    {
        match fc & 0x0F {
            3 => Function::SdaLow,
            4 => Function::SdnLow,
            5 => Function::SdaHigh,
            6 => Function::SdnHigh,
            9 => Function::FdlStatus,
            12 => Function::SrdLow,
            13 => Function::SrdHigh,
            14 => Function::Ident,
            15 => Function::LsapStatus,
            _ => Function::Reserved,
        }
    }

    /// Returns whether the function is SRD, of either priority.
    pub const fn is_srd(self) -> bool
        ensures { result ≡ asks_srd self }
    {
        matches!(self, Function::SrdLow | Function::SrdHigh)
    }

    /// Returns whether the function is SDN, of either priority.
    pub const fn is_sdn(self) -> bool
        ensures { result ≡ asks_sdn self }
    {
        matches!(self, Function::SdnLow | Function::SdnHigh)
    }
}

/// Returns whether a telegram with this FC, 0 to 255, is a request, not a response: bit 6. Bit 7 is
/// ignored (own).
pub const fn is_request(fc: u8) -> bool
    ensures { result ≡ is_request_by fc }
{
    is_set(6, fc)
}

/// Returns FCB, the frame count bit of a request with this FC: bit 5.
pub const fn fcb(fc: u8) -> bool
    ensures { result ≡ frame_count_bit fc }
{
    is_set(5, fc)
}

/// Returns FCV, whether the frame count bit of a request with this FC is valid: bit 4.
pub const fn fcv(fc: u8) -> bool
    ensures { result ≡ frame_count_is_valid fc }
{
    is_set(4, fc)
}

/// Returns whether the bit of this number, 0 to 7, is 1.
const fn is_set(number: u32, octet: u8) -> bool
    requires { number < 8 }
    ensures { result ≡ is_set_of number octet }
{
    octet >> number & 1 == 1
}
