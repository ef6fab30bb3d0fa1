//! What command lines ask for.
use q_drive::DriveSettings;
use q_options::{DriveOptions, Options, PlayOptions, options};
use q_script::RunSettings;
use std::alloc::Global;
use std::process::Abort;
use std::test::Fail;

/// The words of a command line.
fn words(alloc: Global, line: &str) -> Result<Vec<String>, Fail> {
    let mut words = Vec::new(alloc);
    for word in line.split(' ') {
        words.push(String::from_str(alloc, word)?)?;
    }
    Ok(words)
}

/// What a command line asks for; `None` where it is turned down. It promises nothing: what options promise is long, and no test needs
/// it.
fn asked(alloc: Global, line: &str) -> Result<Option<Options>, Fail> {
    Ok(options(alloc, &words(alloc, line)?).ok())
}

/// Checks that a line asks for a play with these settings.
fn assert_play(
    rt: &impl Abort,
    alloc: Global,
    line: &str,
    settings: RunSettings,
) -> Result<(), Fail> {
    let play = PlayOptions {
        settings,
        file: None,
        explain: false,
    };
    assert_eq!(rt; asked(alloc, line)?, Some(Options::Play(play)), "{line}");
    Ok(())
}

#[test]
fn options_of_play(rt: HostRuntime) -> Result<(), Fail> {
    let alloc = rt.alloc();
    let settings = RunSettings::new(1, 0, u32::MAX, 1_000_000).ok_or("settings in range")?;
    assert_play(&rt, alloc, "qtree play", RunSettings::defaults())?;
    assert_play(
        &rt,
        alloc,
        "qtree play --mtu 1 --txqueuelen 0 --seed 4294967295 --record 1000000",
        settings,
    )?;
    assert_play(
        &rt,
        alloc,
        "qtree play --record=1000000 --seed=4294967295 --txqueuelen=0 --mtu=1",
        settings,
    )?;
    Ok(())
}

/// Checks that a line asks for a drive with these settings, which are in range; and that with `--explain` it asks for the same, explained.
fn assert_drive(
    rt: &impl Abort,
    alloc: Global,
    line: &str,
    settings: Option<DriveSettings>,
) -> Result<(), Fail> {
    let settings = settings.ok_or("in range")?;
    for explain in [false, true] {
        let option = if explain { " --explain" } else { "" };
        let line = format!(in alloc; "{line}{option}")?;
        assert_eq!(rt;
            asked(alloc, &line)?,
            Some(Options::Drive(DriveOptions { settings, explain })),
            "{line}"
        );
    }
    Ok(())
}

#[test]
fn options_at_their_bounds(rt: HostRuntime) -> Result<(), Fail> {
    let alloc = rt.alloc();
    let defaults = RunSettings::defaults();
    assert_drive(
        &rt,
        alloc,
        "qtree drive --senders 1 --count 0 --len 1 --ring 1",
        DriveSettings::new(defaults, 1, 0, 1, 1, false, false),
    )?;
    assert_drive(
        &rt,
        alloc,
        "qtree drive --show --ring=65536 --len=65535 --count=1000000 --senders=64",
        DriveSettings::new(defaults, 64, 1_000_000, 65535, 65536, false, true),
    )?;
    let widest = RunSettings::new(65535, u32::MAX, u32::MAX, 1_000_000).ok_or("in range")?;
    assert_drive(
        &rt,
        alloc,
        "qtree drive --senders 2 --count 3 --len 4 --ring 5 --mtu 65535 --txqueuelen 4294967295 --seed 4294967295 --record 1000000",
        DriveSettings::new(widest, 2, 3, 4, 5, false, false),
    )?;
    assert_drive(
        &rt,
        alloc,
        "qtree drive --until-idle --senders 2 --count 3 --len 4 --ring 5",
        DriveSettings::new(defaults, 2, 3, 4, 5, true, false),
    )?;
    assert_drive(
        &rt,
        alloc,
        "qtree drive --senders 2 --show --count 3 --len 4 --ring 5 --until-idle",
        DriveSettings::new(defaults, 2, 3, 4, 5, true, true),
    )
}
