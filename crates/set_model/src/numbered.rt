/// A message that was sent and isn't acknowledged.
#[derive(Clone, Copy, Debug, PartialEq, Eq)]
pub struct Numbered {
    /// The number under which the set accepted it.
    pub number: u64,
    /// The FSN that it carries on its link, 0 to 127 (wide: 4,095) (Q.703 2.2).
    pub fsn: u16,
}
