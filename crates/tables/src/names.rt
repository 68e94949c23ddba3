//! Customers by name.

/// Where a customer stands among all by name: its district, C_LAST, C_FIRST, and last its C_ID (TPC-C 2.5.2.2). The
/// order of these keys is that of their columns.
#[derive(Clone, Copy, Debug, PartialEq, Eq, PartialOrd, Ord)]
pub struct NameKey {
    pub warehouse: u32,
    pub district: u32,
    pub last_name: u32,
    pub first_name: u32,
    pub customer: u32,
}
