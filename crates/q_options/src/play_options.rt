use q_script::RunSettings;

/// What `qtree play` is asked for.
#[derive(PartialEq, Eq, Debug, Drop)]
pub struct PlayOptions {
    /// The settings of the device.
    pub settings: RunSettings,
    /// The path of the file that has the script; standard input has it where none is named, or `-`.
    pub file: Option<String>,
    /// Whether each line that is not done is explained on the error output.
    pub explain: bool,
}
