//! The parameters that a slave accepts.

/// The limits of the parameters that a slave accepts (IEC 61158-6-3, Set_Prm request).
#[derive(Clone, Copy, Debug, PartialEq, Eq)]
pub struct Limits {
    /// The slave's ident number.
    pub ident: u16,
    /// The slave supports Sync.
    pub sync: bool,
    /// The slave supports Freeze.
    pub freeze: bool,
    /// The greatest number of octets of user parameters. A telegram has room for 237 of them.
    pub user_max: u8,
}
