use q_drive::DriveSettings;

/// What `qtree drive` is asked for.
#[derive(Clone, Copy, PartialEq, Eq, Debug)]
pub struct DriveOptions {
    /// The settings of the device and of its senders.
    pub settings: DriveSettings,
    /// Whether each line that is not done is explained on the error output.
    pub explain: bool,
}
