/// What may be wrong with a line that was done.
#[derive(Clone, Copy, PartialEq, Eq, Debug)]
pub enum Remark {
    /// It gives a tbf a burst of fewer bytes than the device's mtu, which is this.
    SmallBurst { mtu: u16 },
    /// It names another device than a line before it.
    OtherDevice,
}

impl Remark {
    /// The words whose value is marked: the first of these that the line has.
    pub fn words(self) -> &'static [&'static str] {
        match self {
            Remark::SmallBurst { .. } => &["burst", "buffer", "maxburst"],
            Remark::OtherDevice => &["dev"],
        }
    }
}
